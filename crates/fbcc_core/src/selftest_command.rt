//! The command `selftest`: the work of `domain` and of `check` on a generated case, in memory.

ghost use Rattle.std.specs.Prelude.{◌≤◌, Err, IfErr, IfOk, Ok, length};
ghost use Rattle.fb_certificate.specs.Thin.{IsThinDomain};
ghost use Rattle.fb_certificate.specs.Valid.{IsValid};
ghost use Rattle.fb_certificate.specs.Whole.{IsCracOver, IsWhole};
ghost use Rattle.fb_json.specs.Spots.{doc_tree};
ghost use Rattle.glsk_keys.specs.Laws.{AreKeys};
ghost use Rattle.run_settings.specs.Laws.{AreSettings};
ghost use Rattle.run_settings.specs.Views.{said};
ghost use Rattle.fbcc_core.specs.Commands.{case_inputs, selftest_work as selftest_steps, tests};
ghost use Rattle.fbcc_core.specs.Reading.{case_documents, crac_said, keys_said, reads_grid, reads_tree, settings_said};
ghost use Rattle.fbcc_core.specs.Understood.{AreInOrder};

use crate::answer::{Document, Fault};
use crate::documents::RunDocuments;
use crate::inputs::put_together;
use crate::understanding::{crac_in, grid_in, keys_in, settings_in, tree_in};
use crate::work::Work;
use case_maker::{Case, make_case};
use certificate_check::{Verdict, check};
use domain_maker::make_certificate;
use fan_out::Gate;
use fb_certificate::{Certificate, Inputs};
use fb_json::Doc;
use fb_types::{Crac, Grid, Items, Text};
use glsk_keys::Keys;
use run_report::write_summary;
use run_settings::Settings;
use std::alloc::Global;
use std::thread::Threads;
use valid_domains::sound;

/// Makes the case with this number and so many nodes, computes its domain, checks its certificate, and sums it up.
pub fn selftest_work<R: Threads + Sync, G: Gate + Sync>(
    rt: &R,
    alloc: Global,
    case: u64,
    nodes: u32,
    gate: &G,
    workers: u32,
) -> Result<Work, Fault>
    requires nodes { (48 ≤ nodes) × (nodes ≤ 4096) }
    requires workers { (1 ≤ workers) × (workers ≤ 64) }
    ensures { selftest_steps case nodes result }
{
    let inputs = inputs_of(alloc, case, nodes)?;
    test(rt, alloc, case, nodes, &inputs, gate, workers)
}

/// The inputs of the case.
fn inputs_of(alloc: Global, case: u64, nodes: u32) -> Result<Inputs, Fault>
    requires nodes { (48 ≤ nodes) × (nodes ≤ 4096) }
    ensures steps { case_inputs case nodes result }
    ensures whole { IfOk result IsWhole }
{
    let case = match make_case(alloc, case, nodes) {
        Ok(case) => case,
        Err(e) => return Err(Fault::Memory(e)),
    };
    let documents = understand(alloc, &case)?;
    put_together(alloc, documents)
}

/// The documents of the case.
fn understand(alloc: Global, case: &Case) -> Result<RunDocuments, Fault>
    ensures steps { case_documents case.now result }
    ensures laws { IfOk result AreInOrder }
{
    let grid = grid_said(alloc, &case.grid)?;
    let crac = crac_said(alloc, &case.crac, &grid)?;
    let settings = settings_said(alloc, &case.settings, &grid)?;
    let keys = keys_said(alloc, &case.glsk, &grid, &settings)?;
    Ok(RunDocuments {
        grid,
        crac,
        settings,
        keys,
        reductions: Items::new(alloc),
    })
}

/// The grid that the text spells.
fn grid_said(alloc: Global, text: &Text) -> Result<Grid, Fault>
    ensures { reads_grid text.now result }
{
    grid_in(alloc, text.as_text().as_bytes())
}

/// The tree of the text of a JSON document.
fn tree_said(alloc: Global, document: Document, text: &Text) -> Result<Doc, Fault>
    ensures tree { IfOk result (λ doc. reads_tree document text.now (Ok (doc_tree doc))) }
    ensures fault { IfErr result (λ fault. reads_tree document text.now (Err fault)) }
{
    tree_in(alloc, document, text.as_text().as_bytes())
}

/// The CRAC that the text gives of the grid.
fn crac_said(alloc: Global, text: &Text, grid: &Grid) -> Result<Crac, Fault>
    ensures step { crac_said text.now grid.now result }
    ensures laws { IfOk result (IsCracOver (length grid.now.branches)) }
{
    let doc = tree_said(alloc, Document::Crac, text)?;
    crac_in(alloc, &doc, grid)
}

/// The settings that the text gives.
fn settings_said(alloc: Global, text: &Text, grid: &Grid) -> Result<Settings, Fault>
    ensures step { settings_said text.now grid.now result }
    ensures laws { IfOk result (λ settings. AreSettings grid.now.nodes (said settings)) }
{
    let doc = tree_said(alloc, Document::Settings, text)?;
    settings_in(alloc, &doc, grid)
}

/// The shift keys that the text gives.
fn keys_said(alloc: Global, text: &Text, grid: &Grid, settings: &Settings) -> Result<Keys, Fault>
    ensures step { keys_said text.now grid.now settings.now result }
    ensures laws { IfOk result (AreKeys grid.now.nodes settings.now.zones) }
{
    let doc = tree_said(alloc, Document::Glsk, text)?;
    keys_in(alloc, &doc, grid, settings)
}

/// The summary of the domain of the inputs, once its certificate is checked.
fn test<R: Threads + Sync, G: Gate + Sync>(
    rt: &R,
    alloc: Global,
    case: u64,
    nodes: u32,
    inputs: &Inputs,
    gate: &G,
    workers: u32,
) -> Result<Work, Fault>
    requires whole { IsWhole inputs.now }
    requires workers { (1 ≤ workers) × (workers ≤ 64) }
    ensures { tests case nodes inputs.now result }
{
    let certificate = match make_certificate(rt, alloc, inputs, gate, workers) {
        Ok(certificate) => certificate,
        Err(e) => return Err(Fault::Memory(e)),
    };
    match check(rt, alloc, inputs, &certificate, gate, workers) {
        Ok(Verdict::Yes) => summarise(alloc, case, nodes, inputs, &certificate),
        Ok(Verdict::No { .. }) => unreachable!(),
        Err(e) => Err(Fault::Memory(e)),
    }
}

/// The summary of the domain of the inputs, from its certificate.
fn summarise(
    alloc: Global,
    case: u64,
    nodes: u32,
    inputs: &Inputs,
    certificate: &Certificate,
) -> Result<Work, Fault>
    requires whole { IsWhole inputs.now }
    requires valid { IsValid inputs.now certificate.now }
    requires thin { IsThinDomain inputs.now certificate.now }
    ensures { tests case nodes inputs.now result }
{
    sound(inputs, certificate);
    match write_summary(alloc, case, nodes, inputs, certificate) {
        Ok(text) => Ok(Work {
            text: Items::from_vec(text),
            verdict: None,
        }),
        Err(e) => Err(Fault::Memory(e)),
    }
}
