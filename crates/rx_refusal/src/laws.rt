//! Laws of the definitions. The functions do nothing: each contract is a law.

ghost use Rattle.rx_base.specs.declared.diagnostic.Diagnostic.{Diagnostic};
ghost use Rattle.rx_model.specs.declared.mode.Mode.{Mode};
ghost use Rattle.rx_model.specs.Inputs.Inputs.{AsksFor, Input};
ghost use Rattle.rx_model.specs.Reading.Headline.{IsFirstRefusal};
ghost use Rattle.rx_refusal.specs.declared.field.Field.TheVariants as field;
ghost use Rattle.rx_refusal.specs.Fields.{IsFieldOf};

/// The spans of the first refusal of an input lie in its flags exactly where these ask for no mode, being wrong themselves.
pub fn field_is_refused()
    ensures flags { (input : Input) (refusal : Diagnostic) → IsFirstRefusal input refusal → IsFieldOf input refusal field.Flags → (mode : Mode) → AsksFor input mode → ⊥ }
    ensures pattern { (input : Input) (refusal : Diagnostic) → IsFirstRefusal input refusal → IsFieldOf input refusal field.Pattern → (mode : Mode) × AsksFor input mode }
{}
