//! Attribute specifications of a declaration.

ghost use Rattle.std.specs.Prelude.{◌≡◌, ◌⊎◌, false};
ghost use Rattle.dwarf_abbrev.specs.Values.{TakesNoBytes};

use crate::constants::{DW_FORM_FLAG_PRESENT, DW_FORM_IMPLICIT_CONST};

/// An attribute specification of a declaration (DWARF 5, section 7.5.3).
#[derive(Clone, Copy, Debug, PartialEq, Eq, Hash)]
pub struct Spec {
    /// The attribute's number, `DW_AT_*`.
    pub attribute: u64,
    /// The number of the form of its values, `DW_FORM_*`.
    pub form: u64,
    /// The value that all these entries share, if the form is `DW_FORM_implicit_const`; 0 for any other
    /// form.
    pub constant: i64,
}

impl Spec {
    /// Whether a value of this attribute may take bytes of an entry. It is false for `DW_FORM_flag_present` and
    /// `DW_FORM_implicit_const` alone, so a form that this crate doesn't know counts as one that may take bytes.
    #[tactic(auto, using(crate::proofs::NoBytes::flag_present, crate::proofs::NoBytes::implicit_const))]
    pub fn has_bytes(&self) -> bool
        ensures none { result ≡ false → TakesNoBytes self.now }
        ensures known { (self.now.form ≡ DW_FORM_FLAG_PRESENT)
            ⊎ (self.now.form ≡ DW_FORM_IMPLICIT_CONST) → result ≡ false }
    {
        self.form != DW_FORM_FLAG_PRESENT && self.form != DW_FORM_IMPLICIT_CONST
    }
}
