//! The names of causes, as a refusal's line has them.

ghost use Rattle.std.specs.Prelude.{◌≡◌, ◌++◌};
ghost use Rattle.yaml_subset.specs.Fault.{form_text, cause_text};

use crate::fault::{YamlCause, YamlForm};

impl YamlForm {
    /// The name of a form that the subset leaves out.
    fn name(self) -> &'static str
        ensures { result.now ≡ form_text self }
    {
        match self {
            YamlForm::Anchor => "Anchor",
            YamlForm::Alias => "Alias",
            YamlForm::Tag => "Tag",
            YamlForm::BlockScalar => "BlockScalar",
            YamlForm::Directive => "Directive",
            YamlForm::ComplexKey => "ComplexKey",
            YamlForm::MergeKey => "MergeKey",
            YamlForm::Documents => "Documents",
            YamlForm::LongFlow => "LongFlow",
            YamlForm::LongQuote => "LongQuote",
            YamlForm::Wide => "Wide",
        }
    }
}

impl YamlCause {
    /// The name of a cause in two pieces, of which the second is the form that is left out.
    pub fn names(self) -> (&'static str, &'static str)
        ensures { result.0.now ++ result.1.now ≡ cause_text self }
    {
        match self {
            YamlCause::NotUtf8 => ("NotUtf8", ""),
            YamlCause::TooLong => ("TooLong", ""),
            YamlCause::TooDeep => ("TooDeep", ""),
            YamlCause::Tab => ("Tab", ""),
            YamlCause::LeftOut(form) => ("LeftOut ", form.name()),
            YamlCause::Indent => ("Indent", ""),
            YamlCause::DuplicateKey => ("DuplicateKey", ""),
            YamlCause::Syntax => ("Syntax", ""),
        }
    }
}
