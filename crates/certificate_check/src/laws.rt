//! Laws of the verdicts on certificates. They compute nothing.

ghost use Rattle.std.specs.Prelude.{◌≡◌, ◌↔◌};
ghost use Rattle.fb_certificate.specs.Valid.{IsValid};
ghost use Rattle.fb_certificate.specs.declared.types.Certificate.{Certificate};
ghost use Rattle.fb_certificate.specs.declared.types.Inputs.{Inputs};
ghost use Rattle.certificate_check.specs.Verdicts.{IsVerdict};
ghost use Rattle.certificate_check.specs.declared.verdict.Verdict.{Verdict};
ghost use Rattle.certificate_check.specs.declared.verdict.Verdict.TheVariants.{Yes};

/// Law: the verdict is yes exactly where the certificate is valid.
pub fn yes_exactly_where_valid()
    ensures { (inputs : Inputs) (c : Certificate) → IsVerdict inputs c Yes ↔ IsValid inputs c }
{}

/// Law: a certificate has at most one verdict.
pub fn verdicts_are_one()
    ensures { (inputs : Inputs) (c : Certificate) (v w : Verdict) → IsVerdict inputs c v → IsVerdict inputs c w → v ≡ w }
{}
