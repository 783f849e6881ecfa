//! The certificate as a whole.

ghost use Rattle.std.specs.Prelude.{◌≡◌, ℕ, IfOk};
ghost use Rattle.csv.specs.Records.{fields_of};
ghost use Rattle.csv_rows.specs.Rows.{records_in};
ghost use Rattle.fb_certificate.specs.declared.types.Certificate.{Certificate};
ghost use Rattle.certificate_reader.specs.Drafts.{IsNextDraft};
ghost use Rattle.certificate_reader.specs.Reading.{IsReading, IsFirstBadRow, SaysOf, IsCertificateOrMemory, IsBadRowOrMemory};

use crate::draft::Draft;
use crate::record::read_record;
use csv::ByteRecord;
use csv_rows::{next_row, rows};
use fb_certificate::Certificate;
use std::alloc::{AllocError, Global};

/// Why a certificate was not read.
#[derive(Debug, Drop)]
pub enum CertificateError {
    /// The first record that is none of a certificate's text, counted from 1, or the place after the last.
    BadRow { row: u64 },
    Memory(AllocError),
}

/// Reads the text of a certificate.
///
/// The answer is the one certificate that the bytes are, whatever its labels, or the first record that is none where they
/// are none.
pub fn read_certificate(alloc: Global, bytes: &[u8]) -> Result<Certificate, CertificateError>
    // Each answer comes only where it is true, and wherever it is true, unless memory runs out.
    ensures says { SaysOf bytes.now result }
    ensures reads { (c : Certificate) → IsReading bytes.now c → IsCertificateOrMemory result c }
    ensures bad { (row : ℕ) → IsFirstBadRow (records_in bytes.now) row → IsBadRowOrMemory result row }
{
    let mut reader = rows(alloc, bytes);
    let mut fields = ByteRecord::new(alloc);
    let mut draft = Draft::new(alloc);
    for number in 1..u64::MAX {
        let found = match next_row(&mut reader, &mut fields) {
            Ok(found) => found,
            Err(e) => return Err(CertificateError::Memory(e)),
        };
        if !found {
            let Some(certificate) = draft.finish() else {
                return Err(CertificateError::BadRow { row: number });
            };
            return Ok(certificate);
        }
        draft = match with_record(alloc, draft, &fields) {
            Ok(Some(next)) => next,
            Ok(None) => return Err(CertificateError::BadRow { row: number }),
            Err(e) => return Err(CertificateError::Memory(e)),
        };
    }
    Err(CertificateError::Memory(AllocError))
}

/// The draft with the record that the fields spell, if there is one that may stand next.
fn with_record(
    alloc: Global,
    draft: Draft,
    fields: &ByteRecord,
) -> Result<Option<Draft>, AllocError>
    ensures { IfOk result (λ o. IsNextDraft draft (fields_of fields.now) o) }
{
    let Some(record) = read_record(alloc, fields)? else {
        return Ok(None);
    };
    if !draft.takes(&record) {
        return Ok(None);
    }
    let next = draft.take(alloc, record)?;
    Ok(Some(next))
}
