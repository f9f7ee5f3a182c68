ghost use Rattle.std.specs.Prelude.{◌≡◌, ◌∷◌, [], IfOk, OnOk, encode_utf8_all};
ghost use Rattle.rx_ast.specs.Kinds.{order, pattern as pattern_kind};
ghost use Rattle.rx_ast.specs.Tree.{mirror};
ghost use Rattle.rx_command.specs.Features.{feature_name, has_feature};
ghost use Rattle.rx_parser.specs.Inputs.{input_of};
ghost use Rattle.rx_refusal.specs.Fields.{text_in as flags_text};
ghost use Rattle.rx_json.specs.Adding.{Adds};
ghost use Rattle.rx_json.specs.Values.{field_tokens, value_tokens};
ghost use Rattle.rx_json_reply.specs.Alone.{alone};
ghost use Rattle.rx_json_reply.specs.Parts.{is_needed, needed_among, only_if, unsupported_fields};

use crate::request::Request;
use json::Writer;
use rx_ast::Pattern;
use rx_base::OutOfMemory;
use rx_command::{Feature, Features};
use rx_refusal::{Field, text_in};
use rx_tools::support::has_unsupported_regular_expression_flags;
use std::alloc::Global;

/// The features in the order in which they are told.
const FEATURES: [Feature; 11] = [
    Feature::Sticky,
    Feature::Unicode,
    Feature::DotAll,
    Feature::MatchIndices,
    Feature::UnicodeSets,
    Feature::NamedCaptureGroups,
    Feature::DuplicateNamedCaptureGroups,
    Feature::UnicodePropertyEscapes,
    Feature::LookBehindAssertions,
    Feature::PatternModifiers,
    Feature::BufferBoundaries,
];

/// Where features are asked for, writes the member that lists those of them that the flags or the pattern of a literal need.
pub fn write_unsupported(
    alloc: Global,
    writer: &mut Writer,
    request: &Request<'_>,
    pattern: &Pattern,
) -> Result<(), OutOfMemory>
    ensures { OnOk result (Adds writer.old writer.new (field_tokens (only_if request.now.want.unsupported
        (unsupported_fields (input_of request.now.form request.now.pattern.now request.now.flags request.now.options) (has_feature request.now.want.features) pattern.now)))) }
{
    if !request.want.unsupported {
        return Ok(());
    }
    write_list(alloc, writer, request, pattern)
}

fn write_list(
    alloc: Global,
    writer: &mut Writer,
    request: &Request<'_>,
    pattern: &Pattern,
) -> Result<(), OutOfMemory>
    ensures { OnOk result (Adds writer.old writer.new (field_tokens
        (unsupported_fields (input_of request.now.form request.now.pattern.now request.now.flags request.now.options) (has_feature request.now.want.features) pattern.now))) }
{
    writer.key("unsupported")?;
    writer.begin_array()?;
    write_needed(alloc, writer, request, pattern, &FEATURES)?;
    writer.end_array()?;
    Ok(())
}

/// Writes the names of those features that are asked for and needed.
fn write_needed(
    alloc: Global,
    writer: &mut Writer,
    request: &Request<'_>,
    pattern: &Pattern,
    features: &[Feature],
) -> Result<(), OutOfMemory>
    ensures { OnOk result (Adds writer.old writer.new (value_tokens (needed_among (has_feature request.now.want.features)
        (encode_utf8_all (flags_text (input_of request.now.form request.now.pattern.now request.now.flags request.now.options) Field.Flags)) (order (pattern_kind (mirror pattern.now))) features.now))) }
{
    for feature in features {
        write_if_needed(alloc, writer, request, pattern, *feature)?;
    }
    Ok(())
}

fn write_if_needed(
    alloc: Global,
    writer: &mut Writer,
    request: &Request<'_>,
    pattern: &Pattern,
    feature: Feature,
) -> Result<(), OutOfMemory>
    ensures { OnOk result (Adds writer.old writer.new (value_tokens (needed_among (has_feature request.now.want.features)
        (encode_utf8_all (flags_text (input_of request.now.form request.now.pattern.now request.now.flags request.now.options) Field.Flags)) (order (pattern_kind (mirror pattern.now))) (feature ∷ [])))) }
{
    if !request.want.features.has(feature) {
        return Ok(());
    }
    let letters = text_in(&request.input(), Field::Flags);
    if !is_needed(alloc, feature, letters, pattern)? {
        return Ok(());
    }
    writer.string(name_of(feature))?;
    Ok(())
}

/// Whether flags of these letters or a pattern need a feature.
fn is_needed(
    alloc: Global,
    feature: Feature,
    letters: &str,
    pattern: &Pattern,
) -> Result<bool, OutOfMemory>
    ensures { IfOk result (λ needed. needed ≡ is_needed letters.now (order (pattern_kind (mirror pattern.now))) feature) }
{
    let alone = features_of(feature);
    if has_unsupported_regular_expression_flags(letters, &alone.flags) {
        return Ok(true);
    }
    alone.are_needed(alloc, pattern)
}

/// A feature and no other.
fn features_of(feature: Feature) -> Features
    ensures { result ≡ alone feature }
{
    let mut alone = Features::none();
    alone.insert(feature);
    alone
}

fn name_of(feature: Feature) -> &'static str
    ensures { result.now ≡ feature_name feature }
{
    match feature {
        Feature::Sticky => "sticky",
        Feature::Unicode => "unicode",
        Feature::DotAll => "dot_all",
        Feature::MatchIndices => "match_indices",
        Feature::UnicodeSets => "unicode_sets",
        Feature::NamedCaptureGroups => "named_capture_groups",
        Feature::DuplicateNamedCaptureGroups => "duplicate_named_capture_groups",
        Feature::UnicodePropertyEscapes => "unicode_property_escapes",
        Feature::LookBehindAssertions => "look_behind_assertions",
        Feature::PatternModifiers => "pattern_modifiers",
        Feature::BufferBoundaries => "buffer_boundaries",
    }
}
