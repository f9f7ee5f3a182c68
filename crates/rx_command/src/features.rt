ghost use Rattle.std.specs.Prelude.{◌≡◌, ◌||◌, ◌↔◌, ◌⊎◌, IsTrue, MatchOption, IfOk, false};
ghost use Rattle.rx_ast.specs.Kinds.{order, pattern as pattern_kind};
ghost use Rattle.rx_ast.specs.Tree.{mirror};
ghost use Rattle.rx_command.specs.declared.features.Feature.{Feature as Named};
ghost use Rattle.rx_command.specs.declared.features.Features.{Features as Listed};
ghost use Rattle.rx_command.specs.Features.{IsFeatureList, feature_name, has_feature, needs_feature};

use rx_ast::Pattern;
use rx_base::OutOfMemory;
use rx_visit::{
    RegexUnsupportedFlags, RegexUnsupportedPatterns, has_buffer_boundaries_in,
    has_unsupported_regular_expression_pattern_in,
};
use std::alloc::Global;

/// What an engine may not support of flags and of patterns.
#[derive(Clone, Copy)]
pub enum Feature {
    Sticky,
    Unicode,
    DotAll,
    MatchIndices,
    UnicodeSets,
    NamedCaptureGroups,
    DuplicateNamedCaptureGroups,
    UnicodePropertyEscapes,
    LookBehindAssertions,
    PatternModifiers,
    BufferBoundaries,
}

impl Feature {
    /// The feature of this name, or none.
    pub fn from_name(name: &str) -> Option<Feature>
        ensures { MatchOption result
            ((feature : Named) → ¬ (name.now ≡ feature_name feature))
            (λ feature. name.now ≡ feature_name feature) }
    {
        match name {
            "sticky" => Some(Feature::Sticky),
            "unicode" => Some(Feature::Unicode),
            "dot_all" => Some(Feature::DotAll),
            "match_indices" => Some(Feature::MatchIndices),
            "unicode_sets" => Some(Feature::UnicodeSets),
            "named_capture_groups" => Some(Feature::NamedCaptureGroups),
            "duplicate_named_capture_groups" => Some(Feature::DuplicateNamedCaptureGroups),
            "unicode_property_escapes" => Some(Feature::UnicodePropertyEscapes),
            "look_behind_assertions" => Some(Feature::LookBehindAssertions),
            "pattern_modifiers" => Some(Feature::PatternModifiers),
            "buffer_boundaries" => Some(Feature::BufferBoundaries),
            _ => None,
        }
    }
}

/// Features that are not supported.
#[derive(Default, Drop)]
pub struct Features {
    pub flags: RegexUnsupportedFlags,
    pub patterns: RegexUnsupportedPatterns,

    /// `\A`, `\z` and `\Z`
    pub buffer_boundaries: bool,
}

impl Features {
    /// No features.
    pub fn none() -> Features
        ensures { (feature : Named) → has_feature result feature ≡ false }
    {
        Features::default()
    }

    /// The features of a list, or none where the word is none of the lists.
    pub fn parse(word: &str) -> Option<Features>
        ensures { MatchOption result
            ((features : Listed) → ¬ IsFeatureList word.now features)
            (λ features. IsFeatureList word.now features) }
    {
        let mut features = Features::none();
        for name in word.split(',') {
            let feature = Feature::from_name(name)?;
            if features.has(feature) {
                return None;
            }
            features.insert(feature);
        }
        Some(features)
    }

    /// Whether a pattern needs one of these features.
    pub fn are_needed(&self, alloc: Global, pattern: &Pattern) -> Result<bool, OutOfMemory>
        ensures { IfOk result (λ needed. needed ≡ needs_feature self.now (order (pattern_kind (mirror pattern.now)))) }
    {
        if has_unsupported_regular_expression_pattern_in(alloc, pattern, &self.patterns)? {
            return Ok(true);
        }
        if self.buffer_boundaries {
            has_buffer_boundaries_in(alloc, pattern)
        } else {
            Ok(false)
        }
    }

    /// Whether the field of a feature is set.
    pub fn has(&self, feature: Feature) -> bool
        ensures { result ≡ has_feature self.now feature }
    {
        match feature {
            Feature::Sticky => self.flags.sticky,
            Feature::Unicode => self.flags.unicode,
            Feature::DotAll => self.flags.dot_all,
            Feature::MatchIndices => self.flags.match_indices,
            Feature::UnicodeSets => self.flags.unicode_sets,
            Feature::NamedCaptureGroups => self.patterns.named_capture_groups,
            Feature::DuplicateNamedCaptureGroups => self.patterns.duplicate_named_capture_groups,
            Feature::UnicodePropertyEscapes => self.patterns.unicode_property_escapes,
            Feature::LookBehindAssertions => self.patterns.look_behind_assertions,
            Feature::PatternModifiers => self.patterns.pattern_modifiers,
            Feature::BufferBoundaries => self.buffer_boundaries,
        }
    }

    /// Sets the field of a feature, and no other.
    pub fn insert(&mut self, feature: Feature)
        ensures { (other : Named) → IsTrue (has_feature self.new other) ↔ ((other ≡ feature) ⊎ IsTrue (has_feature self.old other)) }
    {
        match feature {
            Feature::Sticky => self.flags.sticky = true,
            Feature::Unicode => self.flags.unicode = true,
            Feature::DotAll => self.flags.dot_all = true,
            Feature::MatchIndices => self.flags.match_indices = true,
            Feature::UnicodeSets => self.flags.unicode_sets = true,
            Feature::NamedCaptureGroups => self.patterns.named_capture_groups = true,
            Feature::DuplicateNamedCaptureGroups => {
                self.patterns.duplicate_named_capture_groups = true;
            }
            Feature::UnicodePropertyEscapes => self.patterns.unicode_property_escapes = true,
            Feature::LookBehindAssertions => self.patterns.look_behind_assertions = true,
            Feature::PatternModifiers => self.patterns.pattern_modifiers = true,
            Feature::BufferBoundaries => self.buffer_boundaries = true,
        }
    }
}
