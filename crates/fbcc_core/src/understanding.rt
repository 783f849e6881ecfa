//! What the bytes of each document say, or the fault with which the call answers.

ghost use Rattle.std.specs.Prelude.{◌≤◌, All, Ok, Err, IfOk, IfErr, length};
ghost use Rattle.fb_certificate.specs.Whole.{IsCracOver};
ghost use Rattle.fb_json.specs.Spots.{doc_tree};
ghost use Rattle.fb_types.specs.Domain.{IsHalfOver, AreBounds};
ghost use Rattle.glsk_keys.specs.Laws.{AreKeys};
ghost use Rattle.run_settings.specs.Laws.{AreSettings};
ghost use Rattle.run_settings.specs.ReductionLaws.{AreReductionsOf};
ghost use Rattle.run_settings.specs.Views.{said};
ghost use Rattle.fbcc_core.specs.Reading.{reads_grid, reads_tree, reads_crac, reads_settings, reads_keys, reads_reductions, reads_rows, reads_certificate};

use crate::answer::{Document, Fault};
use crate::documents::CertificateFile;
use certificate_reader::{CertificateError, read_certificate};
use crac_model::{CracError, read_crac};
use fb_json::{Doc, JsonFault, tree};
use fb_types::{Crac, Grid, Items};
use glsk_keys::{KeyError, Keys, read_keys};
use rows_document::{RowsDocument, RowsError, read_rows};
use run_settings::{
    Reduction, ReductionError, Settings, SettingsError, read_reductions, read_settings,
};
use std::alloc::Global;
use ucte_reader::{GridError, read_grid};

/// The grid that the bytes spell.
pub fn grid_in(alloc: Global, bytes: &[u8]) -> Result<Grid, Fault>
    ensures { reads_grid bytes.now result }
{
    match read_grid(alloc, bytes) {
        Ok(grid) => Ok(grid),
        Err(GridError::Fault { line, kind }) => Err(Fault::GridFault { line, kind }),
        Err(GridError::Memory(e)) => Err(Fault::Memory(e)),
    }
}

/// The tree of the bytes of a JSON document.
pub fn tree_in(alloc: Global, document: Document, bytes: &[u8]) -> Result<Doc, Fault>
    ensures tree { IfOk result (λ doc. reads_tree document bytes.now (Ok (doc_tree doc))) }
    ensures fault { IfErr result (λ fault. reads_tree document bytes.now (Err fault)) }
{
    match tree(alloc, bytes) {
        Ok(doc) => Ok(doc),
        Err(JsonFault::NotJson) => Err(Fault::JsonFault { document }),
        Err(JsonFault::Memory(e)) => Err(Fault::Memory(e)),
    }
}

/// The CRAC that the document gives of the grid.
pub fn crac_in(alloc: Global, doc: &Doc, grid: &Grid) -> Result<Crac, Fault>
    ensures step { reads_crac grid.now (doc_tree doc.now) result }
    ensures laws { IfOk result (IsCracOver (length grid.now.branches)) }
{
    match read_crac(alloc, doc, grid) {
        Ok(crac) => Ok(crac),
        Err(CracError::Fault { place, kind }) => Err(Fault::CracFault { place, kind }),
        Err(CracError::Memory(e)) => Err(Fault::Memory(e)),
    }
}

/// The settings that the document gives.
pub fn settings_in(alloc: Global, doc: &Doc, grid: &Grid) -> Result<Settings, Fault>
    ensures step { reads_settings grid.now (doc_tree doc.now) result }
    ensures laws { IfOk result (λ settings. AreSettings grid.now.nodes (said settings)) }
{
    match read_settings(alloc, doc, grid) {
        Ok(settings) => Ok(settings),
        Err(SettingsError::Fault { place, kind }) => Err(Fault::SettingsFault { place, kind }),
        Err(SettingsError::Memory(e)) => Err(Fault::Memory(e)),
    }
}

/// The shift keys that the document gives.
pub fn keys_in(alloc: Global, doc: &Doc, grid: &Grid, settings: &Settings) -> Result<Keys, Fault>
    ensures step { reads_keys grid.now settings.now (doc_tree doc.now) result }
    ensures laws { IfOk result (AreKeys grid.now.nodes settings.now.zones) }
{
    match read_keys(alloc, doc, grid, settings) {
        Ok(keys) => Ok(keys),
        Err(KeyError::Fault { place, kind }) => Err(Fault::KeyFault { place, kind }),
        Err(KeyError::Memory(e)) => Err(Fault::Memory(e)),
    }
}

/// The reductions that the bytes spell.
pub fn reductions_in(alloc: Global, bytes: &[u8], crac: &Crac) -> Result<Items<Reduction>, Fault>
    ensures step { reads_reductions crac.now bytes.now result }
    ensures laws { IfOk result (AreReductionsOf crac.now.elements) }
{
    match read_reductions(alloc, bytes, crac) {
        Ok(reductions) => Ok(reductions),
        Err(ReductionError::Fault { row, kind }) => Err(Fault::ReductionFault { row, kind }),
        Err(ReductionError::Memory(e)) => Err(Fault::Memory(e)),
    }
}

/// The rows document that the bytes spell.
pub fn rows_in(alloc: Global, bytes: &[u8]) -> Result<RowsDocument, Fault>
    ensures step { reads_rows bytes.now result }
    ensures target_over { IfOk result (λ d. IsHalfOver (length d.bounds) d.target) }
    ensures rows_over { IfOk result (λ d. All (λ row. IsHalfOver (length d.bounds) row) d.rows) }
    ensures bounds_in_range { IfOk result (λ d. AreBounds d.bounds) }
    ensures few_rows { IfOk result (λ d. length d.rows ≤ 40000) }
{
    match read_rows(alloc, bytes) {
        Ok(document) => Ok(document),
        Err(RowsError::Fault { line }) => Err(Fault::CertificateFault { row: line }),
        Err(RowsError::Memory(e)) => Err(Fault::Memory(e)),
    }
}

/// The certificate that the bytes spell.
pub fn certificate_in(alloc: Global, bytes: Items<u8>) -> Result<CertificateFile, Fault>
    ensures step { reads_certificate bytes result }
{
    match read_certificate(alloc, bytes.as_slice()) {
        Ok(certificate) => Ok(CertificateFile { bytes, certificate }),
        Err(CertificateError::BadRow { row }) => Err(Fault::CertificateFault { row }),
        Err(CertificateError::Memory(e)) => Err(Fault::Memory(e)),
    }
}
