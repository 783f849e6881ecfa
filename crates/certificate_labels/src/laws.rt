//! What ties the labels of a certificate's text to those that are due.

ghost use Rattle.std.specs.Prelude.{◌≡◌, ℕ, List, Option, length, map};
ghost use Rattle.csv_rows.specs.Rows.{records_in};
ghost use Rattle.fb_certificate.specs.CracRows.{crac_rows};
ghost use Rattle.fb_certificate.specs.declared.types.Certificate.{Certificate};
ghost use Rattle.fb_certificate.specs.declared.types.Inputs.{Inputs};
ghost use Rattle.certificate_text.specs.CertificateTexts.{labelled, certificate_text};
ghost use Rattle.certificate_text.specs.Lines.{fields_of};
ghost use Rattle.certificate_reader.specs.Reading.{HasDueLengths};
ghost use Rattle.certificate_labels.specs.Labels.{due_labels, AreLabelled, IsWrongLabel};

/// The records of a certificate's text are its lines, whatever their ranges.
pub fn written_records_are_lines()
    ensures { (inputs : Inputs) (c : Certificate) → records_in (certificate_text inputs c) ≡ map fields_of (labelled inputs c) }
{}

/// The lines of a certificate have the labels that are due, where its lists have the due lengths.
pub fn written_labels_are_due()
    ensures { (inputs : Inputs) (c : Certificate) → HasDueLengths inputs c → length c.rows ≡ length (crac_rows inputs.crac.elements) → AreLabelled (due_labels inputs) (map fields_of (labelled inputs c)) }
{}

/// No two answers say which label is the first that is wrong.
pub fn wrong_labels_are_one()
    ensures { (due records : List (List (List ℕ))) (x y : Option ℕ) → IsWrongLabel due records x → IsWrongLabel due records y → x ≡ y }
{}
