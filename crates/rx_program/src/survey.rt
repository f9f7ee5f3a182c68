ghost use Rattle.std.specs.Prelude.{◌≡◌, ◌+◌, [], IfOk, OnOk, map};
ghost use Rattle.rx_ast.specs.ClassTree.{members, mirror_contents};
ghost use Rattle.rx_ast.specs.Tree.{mirror_disjunction, mirror_term};
ghost use Rattle.rx_trace.specs.Groups.{names_in};
ghost use Rattle.rx_program.specs.SurveyState.{IsSurvey, LookedAt, looks, members_looks, names_rest, node_looks, unsupported_members, unsupported_node, unsupported_rest, with_rest};

use rx_ast::{Alternative, CharacterClassContents, Disjunction, Term};
use rx_base::{List, OutOfMemory, Span, Text};
use rx_trace::unsupported_modifiers;
use std::alloc::Global;

/// What is still to be looked at.
#[derive(Clone, Copy)]
pub enum Rest<'a> {
    Alternatives(&'a [Alternative]),
    Terms(&'a [Term]),
    Term(&'a Term),
    Contents(&'a [CharacterClassContents]),
}

/// The names of the groups of a tree in order of opening, or the span of the first node that is not supported.
#[derive(Drop)]
pub enum Survey {
    Names(List<Option<Text>>),
    Unsupported(Span),
}

/// The names of the groups so far, and what is still to be looked at, the next last.
#[derive(Drop)]
pub struct Surveyor<'a> {
    pub names: List<Option<Text>>,
    pub rests: List<Rest<'a>>,
}

fn copy_name(alloc: Global, name: &Option<Text>) -> Result<Option<Text>, OutOfMemory>
    ensures { IfOk result (λ it. it ≡ name.now) }
{
    match name {
        None => Ok(None),
        Some(name) => Ok(Some(name.clone(alloc)?)),
    }
}

impl<'a> Surveyor<'a> {
    fn push_rest(&mut self, rest: Rest<'a>) -> Result<(), OutOfMemory>
        ensures { OnOk result (self.new ≡ with_rest self.old rest.entry) }
    {
        self.rests.push(rest)
    }

    /// Looks at the first part of a rest, and leaves the others for later. Gives the span of a node that is not supported.
    fn look_at(&mut self, alloc: Global, rest: Rest<'a>) -> Result<Option<Span>, OutOfMemory>
        ensures { IfOk result (λ it. LookedAt self.old (unsupported_rest rest.entry) (names_rest rest.entry) (looks rest.entry) self.new it) }
    {
        match rest {
            Rest::Alternatives(alternatives) => {
                let Some((first, more)) = alternatives.split_first() else {
                    return Ok(None);
                };
                self.push_rest(Rest::Alternatives(more))?;
                self.push_rest(Rest::Terms(first.body.as_slice()))?;
                Ok(None)
            }
            Rest::Terms(terms) => {
                let Some((first, more)) = terms.split_first() else {
                    return Ok(None);
                };
                self.push_rest(Rest::Terms(more))?;
                self.push_rest(Rest::Term(first))?;
                Ok(None)
            }
            Rest::Term(term) => self.look_at_term(alloc, term),
            Rest::Contents(contents) => self.look_at_contents(contents),
        }
    }

    fn look_at_term(&mut self, alloc: Global, term: &'a Term) -> Result<Option<Span>, OutOfMemory>
        ensures { IfOk result (λ it. LookedAt self.old (unsupported_node (mirror_term term.now)) (names_in (mirror_term term.now)) (node_looks (mirror_term term.now)) self.new it) }
    {
        match term {
            Term::LookAroundAssertion(it) => {
                self.push_rest(Rest::Alternatives(it.body.body.as_slice()))?;
                Ok(None)
            }
            Term::Quantifier(it) => {
                self.push_rest(Rest::Term(&it.body))?;
                Ok(None)
            }
            Term::UnicodePropertyEscape(it) => Ok(Some(it.span)),
            Term::CharacterClass(it) => {
                self.push_rest(Rest::Contents(it.body.as_slice()))?;
                Ok(None)
            }
            Term::CapturingGroup(it) => {
                let name = copy_name(alloc, &it.name)?;
                self.names.push(name)?;
                self.push_rest(Rest::Alternatives(it.body.body.as_slice()))?;
                Ok(None)
            }
            Term::IgnoreGroup(it) => {
                let unsupported = unsupported_modifiers(&it.modifiers);
                if unsupported.is_some() {
                    return Ok(unsupported);
                }
                self.push_rest(Rest::Alternatives(it.body.body.as_slice()))?;
                Ok(None)
            }
            Term::BoundaryAssertion(_) => Ok(None),
            Term::Character(_) => Ok(None),
            Term::Dot(_) => Ok(None),
            Term::CharacterClassEscape(_) => Ok(None),
            Term::IndexedReference(_) => Ok(None),
            Term::NamedReference(_) => Ok(None),
        }
    }

    fn look_at_contents(
        &mut self,
        contents: &'a [CharacterClassContents],
    ) -> Result<Option<Span>, OutOfMemory>
        ensures { IfOk result (λ it. LookedAt self.old (unsupported_members (members (map mirror_contents contents.now))) [] (1 + members_looks (members (map mirror_contents contents.now))) self.new it) }
    {
        let Some((first, more)) = contents.split_first() else {
            return Ok(None);
        };
        self.push_rest(Rest::Contents(more))?;
        match first {
            CharacterClassContents::UnicodePropertyEscape(it) => Ok(Some(it.span)),
            CharacterClassContents::ClassStringDisjunction(it) => Ok(Some(it.span)),
            CharacterClassContents::NestedCharacterClass(it) => {
                self.push_rest(Rest::Contents(it.body.as_slice()))?;
                Ok(None)
            }
            CharacterClassContents::CharacterClassRange(_) => Ok(None),
            CharacterClassContents::CharacterClassEscape(_) => Ok(None),
            CharacterClassContents::Character(_) => Ok(None),
        }
    }
}

/// Looks at all of a tree. What is still to be looked at waits on the heap, so that a deep tree needs no deep stack.
pub fn survey_tree(alloc: Global, body: &Disjunction) -> Result<Survey, OutOfMemory>
    ensures { IfOk result (λ it. IsSurvey (mirror_disjunction body.now).1 it) }
{
    let mut surveyor = Surveyor {
        names: List::new(alloc),
        rests: List::new(alloc),
    };
    let alternatives = body.body.as_slice();
    surveyor.rests.push(Rest::Alternatives(alternatives))?;
    while let Some(rest) = surveyor.rests.pop() {
        if let Some(span) = surveyor.look_at(alloc, rest)? {
            return Ok(Survey::Unsupported(span));
        }
    }
    let Surveyor { names, .. } = surveyor;
    Ok(Survey::Names(names))
}
