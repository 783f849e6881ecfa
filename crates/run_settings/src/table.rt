//! A whole reductions document.

ghost use Rattle.std.specs.Prelude.{◌≡◌, ℕ, true, false, IfOk, OnOk};
ghost use Rattle.csv.specs.Records.{fields_of};
ghost use Rattle.csv_rows.specs.Rows.{rows_left, IsAtRow};
ghost use Rattle.run_settings.specs.Records.{Reads, IsRowFault, AreReductions, ReadsRecords, HasHeader, HasNoHeader, JudgesAt, with_row};
ghost use Rattle.run_settings.specs.ReductionLaws.{AreReductionsOf};
ghost use Rattle.run_settings.specs.Reductions.{record_fault, reduction_in, IsReductionFault, HasNoReductionFault, reductions_of};

use crate::elements::ElementTable;
use crate::named::Named;
use crate::record::{RecordError, is_header, take};
use crate::reduction::{Reduction, ReductionError, ReductionKind};
use csv::{ByteRecord, Reader};
use csv_rows::{next_row, rows};
use fb_types::{Crac, Items};
use std::alloc::{AllocError, Global};

/// Reads the first row, and says whether it is the header.
fn read_header(reader: &mut Reader<&[u8]>, row: &mut ByteRecord) -> Result<bool, AllocError>
    requires { IsAtRow reader.old }
    ensures header { IfOk result (λ has. has ≡ true → HasHeader (rows_left reader.old) (rows_left reader.new)) }
    ensures at_row { IfOk result (λ has. has ≡ true → IsAtRow reader.new) }
    ensures none { IfOk result (λ has. has ≡ false → HasNoHeader (rows_left reader.old)) }
{
    if next_row(reader, row)? {
        Ok(is_header(row))
    } else {
        Ok(false)
    }
}

/// The reduction of a record, or its fault in this row; the record's element and direction are then named.
fn read_record(
    alloc: Global,
    elements: &ElementTable<'_>,
    named: &mut Named,
    row: &ByteRecord,
    number: u64,
) -> Result<Reduction, ReductionError>
    ensures judged { JudgesAt number (record_fault elements.now named.old (fields_of row.now)) (reduction_in elements.now (fields_of row.now)) result }
    ensures named { OnOk result (named.new ≡ with_row named.old (fields_of row.now)) }
{
    match take(alloc, elements, named, row) {
        Ok(reduction) => Ok(reduction),
        Err(RecordError::Fault(kind)) => Err(ReductionError::Fault { row: number, kind }),
        Err(RecordError::Memory(e)) => Err(ReductionError::Memory(e)),
    }
}

/// The reductions of the records that are left, which are numbered from 2.
fn read_records(
    alloc: Global,
    elements: &ElementTable<'_>,
    reader: &mut Reader<&[u8]>,
    row: &mut ByteRecord,
) -> Result<Items<Reduction>, ReductionError>
    requires { IsAtRow reader.old }
    ensures { ReadsRecords elements.now (rows_left reader.old) result }
{
    let mut named = Named::new(alloc);
    let mut reductions = Items::new(alloc);
    for number in 2..u64::MAX {
        if !next_row(reader, row)? {
            return Ok(reductions);
        }
        match read_record(alloc, elements, &mut named, row, number) {
            Ok(reduction) => reductions.add(reduction)?,
            Err(e) => return Err(e),
        }
    }
    // No text has so many records.
    Err(ReductionError::Memory(AllocError))
}

fn read(alloc: Global, bytes: &[u8], crac: &Crac) -> Result<Items<Reduction>, ReductionError>
    ensures { Reads crac.now.elements bytes.now result }
{
    let mut reader = rows(alloc, bytes);
    let mut row = ByteRecord::new(alloc);
    if !read_header(&mut reader, &mut row)? {
        return Err(ReductionError::Fault {
            row: 1,
            kind: ReductionKind::WrongType,
        });
    }
    let elements = ElementTable::new(alloc, crac)?;
    read_records(alloc, &elements, &mut reader, &mut row)
}

/// The reductions of a document (CSV with the header `element,direction,cva,iva`), in the order of its records, or its first
/// fault. Rows are counted from 1, empty lines left out.
pub fn read_reductions(
    alloc: Global,
    bytes: &[u8],
    crac: &Crac,
) -> Result<Items<Reduction>, ReductionError>
    // Reductions are exactly those of a document without a fault; a fault is the document's first.
    ensures reads { Reads crac.now.elements bytes.now result }

    // Where the document has a first fault, the answer is that one.
    ensures fault { (row : ℕ) (kind : ReductionKind) → IsReductionFault crac.now.elements bytes.now row kind → IsRowFault row kind result }

    // Where it has none, the answer is its reductions.
    ensures reductions { HasNoReductionFault crac.now.elements bytes.now → AreReductions (reductions_of crac.now.elements bytes.now) result }

    // Each names an element that is limited in the direction, and is in its range; no element is reduced twice in a
    // direction.
    ensures laws { IfOk result (AreReductionsOf crac.now.elements) }
{
    read(alloc, bytes, crac)
}
