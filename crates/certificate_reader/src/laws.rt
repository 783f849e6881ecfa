//! What ties the reading of certificates to their writing.

ghost use Rattle.std.specs.List.{All};
ghost use Rattle.fb_certificate.specs.declared.types.Certificate.{Certificate};
ghost use Rattle.fb_certificate.specs.declared.types.Inputs.{Inputs};
ghost use Rattle.certificate_text.specs.CertificateTexts.{labelled, certificate_text};
ghost use Rattle.certificate_text.specs.Lines.{IsGood};
ghost use Rattle.certificate_reader.specs.Reading.{IsReading, HasDueLengths};

/// The text of a certificate is the certificate, where its lists have the due lengths and its numbers and ids are within
/// their ranges.
pub fn texts_read_back()
    ensures { (inputs : Inputs) (c : Certificate) → HasDueLengths inputs c → All IsGood (labelled inputs c) → IsReading (certificate_text inputs c) c }
{}
