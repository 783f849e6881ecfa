//! Laws of the verdicts on files. They compute nothing.

ghost use Rattle.std.specs.Prelude.{◌≡◌, ℕ, List};
ghost use Rattle.fb_certificate.specs.declared.types.Certificate.{Certificate};
ghost use Rattle.fb_certificate.specs.declared.types.Inputs.{Inputs};
ghost use Rattle.certificate_files.specs.Files.{IsFileVerdict};
ghost use Rattle.certificate_check.specs.declared.verdict.Verdict.{Verdict};

/// Law: a file has at most one verdict.
pub fn file_verdicts_are_one()
    ensures { (inputs : Inputs) (bytes : List ℕ) (c : Certificate) (v w : Verdict) → IsFileVerdict inputs bytes c v → IsFileVerdict inputs bytes c w → v ≡ w }
{}
