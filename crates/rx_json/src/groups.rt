ghost use Rattle.std.specs.Prelude.{◌≡◌, ◌+◌, ◌<◌, ◌^◌, ◌∷◌, [], IfOk, OnOk, codes, map};
ghost use Rattle.std.specs.Option.{option_copied};
ghost use Rattle.rx_ast.specs.Kinds.{order, pattern as pattern_kind};
ghost use Rattle.rx_ast.specs.MirrorKinds.{capturing_kind, mirror_kind};
ghost use Rattle.rx_ast.specs.Tree.{mirror};
ghost use Rattle.rx_visit.specs.Names.{name_of};
ghost use Rattle.rx_json.specs.Adding.{Adds};
ghost use Rattle.rx_json.specs.Groups.{group_of, groups_fields, groups_of, names_of, number_after, once_after};
ghost use Rattle.rx_json.specs.Located.{located};
ghost use Rattle.rx_json.specs.Values.{field_tokens, list_of, text, value_tokens};

use crate::member::{write_characters_or_null, write_number, write_place};
use json::Writer;
use rx_ast::{CapturingGroup, Pattern, RegExpAstKind};
use rx_base::{OutOfMemory, Text};
use rx_places::Places;
use rx_visit::nodes_in_order;
use std::alloc::Global;
use std::collections::BTreeSet;

/// Writes the members that list the groups of a pattern, and their names.
pub fn write_groups(
    alloc: Global,
    writer: &mut Writer,
    places: &Places<'_>,
    pattern: &Pattern,
) -> Result<(), OutOfMemory>
    ensures { OnOk result (Adds writer.old writer.new (field_tokens (groups_fields (located places.now) (order (pattern_kind (mirror pattern.now)))))) }
{
    let list = nodes_in_order(alloc, pattern)?;
    write_groups_among(alloc, writer, places, list.as_slice())
}

/// Writes the members that list the groups among some nodes, and their names.
fn write_groups_among(
    alloc: Global,
    writer: &mut Writer,
    places: &Places<'_>,
    nodes: &[RegExpAstKind<'_>],
) -> Result<(), OutOfMemory>
    ensures { OnOk result (Adds writer.old writer.new (field_tokens (groups_fields (located places.now) (map mirror_kind nodes.now)))) }
{
    write_group_list(writer, places, nodes)?;
    write_name_list(alloc, writer, nodes)
}

fn write_group_list(
    writer: &mut Writer,
    places: &Places<'_>,
    nodes: &[RegExpAstKind<'_>],
) -> Result<(), OutOfMemory>
    ensures { OnOk result (Adds writer.old writer.new (field_tokens ((codes "groups", list_of (groups_of (located places.now) 1 (map mirror_kind nodes.now))) ∷ []))) }
{
    writer.key("groups")?;
    writer.begin_array()?;
    write_each_group(writer, places, nodes)?;
    writer.end_array()?;
    Ok(())
}

fn write_name_list(
    alloc: Global,
    writer: &mut Writer,
    nodes: &[RegExpAstKind<'_>],
) -> Result<(), OutOfMemory>
    ensures { OnOk result (Adds writer.old writer.new (field_tokens ((codes "names", list_of (map text (once_after [] (names_of (map mirror_kind nodes.now))))) ∷ []))) }
{
    writer.key("names")?;
    writer.begin_array()?;
    write_names(alloc, writer, nodes)?;
    writer.end_array()?;
    Ok(())
}

fn write_each_group(
    writer: &mut Writer,
    places: &Places<'_>,
    nodes: &[RegExpAstKind<'_>],
) -> Result<(), OutOfMemory>
    ensures { OnOk result (Adds writer.old writer.new (value_tokens (groups_of (located places.now) 1 (map mirror_kind nodes.now)))) }
{
    let mut number: u64 = 1;
    for node in nodes {
        number = write_if_group(writer, places, number, *node)?;
    }
    Ok(())
}

/// Writes a node that is a group, and gives the number of the next one.
fn write_if_group(
    writer: &mut Writer,
    places: &Places<'_>,
    number: u64,
    node: RegExpAstKind<'_>,
) -> Result<u64, OutOfMemory>
    requires { number + 1 < 2 ^ 64 }
    ensures group { OnOk result (Adds writer.old writer.new (value_tokens (group_of (located places.now) number (mirror_kind node.entry)))) }
    ensures next { IfOk result (λ next. next ≡ number_after number (mirror_kind node.entry)) }
{
    match node {
        RegExpAstKind::CapturingGroup(group) => {
            write_group(writer, places, number, group)?;
            Ok(number + 1)
        }
        _ => Ok(number),
    }
}

fn write_group(
    writer: &mut Writer,
    places: &Places<'_>,
    number: u64,
    group: &CapturingGroup,
) -> Result<(), OutOfMemory>
    ensures { OnOk result (Adds writer.old writer.new (value_tokens (group_of (located places.now) number (capturing_kind group.now)))) }
{
    writer.begin_object()?;
    write_number(writer, "number", number)?;
    write_characters_or_null(writer, "name", &group.name)?;
    write_place(writer, places, group.span)?;
    writer.end_object()?;
    Ok(())
}

/// Writes the names of groups in the order of the nodes, each once.
fn write_names(
    alloc: Global,
    writer: &mut Writer,
    nodes: &[RegExpAstKind<'_>],
) -> Result<(), OutOfMemory>
    ensures { OnOk result (Adds writer.old writer.new (value_tokens (map text (once_after [] (names_of (map mirror_kind nodes.now)))))) }
{
    let mut names: BTreeSet<&str> = BTreeSet::new(alloc);
    for node in nodes {
        let found = name_in(*node);
        match found {
            Some(name) => {
                if names.insert(name.as_str())? {
                    writer.string(name.as_str())?;
                }
            }
            None => {}
        }
    }
    Ok(())
}

/// The name of a node that is a group and has one.
fn name_in<'a>(node: RegExpAstKind<'a>) -> Option<&'a Text>
    ensures { option_copied result ≡ name_of (mirror_kind node.entry) }
{
    match node {
        RegExpAstKind::CapturingGroup(group) => match &group.name {
            Some(name) => Some(name),
            None => None,
        },
        _ => None,
    }
}
