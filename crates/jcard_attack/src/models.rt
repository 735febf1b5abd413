//! The kinds of faults that a sweep tries.
ghost use Rattle.std.specs.List.{flat_map};
ghost use Rattle.std.specs.Prelude.{◌≡◌, ◌++◌, if◌then◌else◌, ◌∷◌, [], map, IfOk, OnOk};
ghost use Rattle.jcard_attack.specs.Models.{fault_at, faults_tried, faults_within, first_fault, has_model, kinds_tried, models_tried, pairs_within, second_at, seconds_within};

use jc_card::planned_fault::{PlannedFault, SecondFault};
use jc_interp::attacks::FaultModel;
use jcard_outcomes::models::Models;
use std::alloc::{AllocError, Global};

/// The kinds of faults that are tried, in their order, each by its fault at the first instruction: a fault of each model alone, and then two
/// faults, the second of which comes within this many instructions after the first.
pub(crate) fn kinds_tried(
    alloc: Global,
    models: Models,
    within: u32,
) -> Result<Vec<PlannedFault>, AllocError>
    ensures { IfOk result (λ kinds. kinds.items ≡ kinds_tried models within) }
{
    let tried = models_tried(alloc, models)?;
    let mut kinds = Vec::new(alloc);
    push_singles(&mut kinds, &tried)?;
    push_pairs(&mut kinds, &tried, within)?;
    Ok(kinds)
}

/// The faults that are tried: those of each of these kinds in turn, at the first instructions, which are this many.
pub(crate) fn faults_tried(
    alloc: Global,
    kinds: &[PlannedFault],
    count: u32,
) -> Result<Vec<PlannedFault>, AllocError>
    ensures { IfOk result (λ faults. faults.items ≡ faults_tried kinds.now count) }
{
    let mut faults = Vec::new(alloc);
    for kind in kinds {
        push_faults(&mut faults, *kind, count)?;
    }
    Ok(faults)
}

// Adds the faults of a kind at the first instructions, which are this many.
fn push_faults(
    faults: &mut Vec<PlannedFault>,
    kind: PlannedFault,
    count: u32,
) -> Result<(), AllocError>
    ensures { OnOk result (faults.new.items ≡ faults.old.items ++ faults_within kind count) }
{
    for instruction in 0..count {
        faults.push(fault_at(kind, instruction))?;
    }
    Ok(())
}

// The fault of the same kind at this instruction.
const fn fault_at(kind: PlannedFault, instruction: u32) -> PlannedFault
    ensures { result ≡ fault_at kind instruction }
{
    PlannedFault {
        instruction,
        ..kind
    }
}

// The models that are tried, in their order.
fn models_tried(alloc: Global, models: Models) -> Result<Vec<FaultModel>, AllocError>
    ensures { IfOk result (λ tried. tried.items ≡ models_tried models) }
{
    let mut tried = Vec::new(alloc);
    push_model(&mut tried, models, FaultModel::Skip)?;
    push_model(&mut tried, models, FaultModel::Turn)?;
    push_model(&mut tried, models, FaultModel::Zero)?;
    Ok(tried)
}

// Adds this model, if it is among those that are tried.
fn push_model(
    tried: &mut Vec<FaultModel>,
    models: Models,
    model: FaultModel,
) -> Result<(), AllocError>
    ensures { OnOk result (tried.new.items ≡ tried.old.items
        ++ (if has_model models model then model ∷ [] else [])) }
{
    if has_model(models, model) {
        tried.push(model)?;
    }
    Ok(())
}

// Whether this model is among those that are tried.
const fn has_model(models: Models, model: FaultModel) -> bool
    ensures { result ≡ has_model models model }
{
    match model {
        FaultModel::Skip => models.skip,
        FaultModel::Turn => models.turn,
        FaultModel::Zero => models.zero,
    }
}

// Adds a fault of each of these models alone.
fn push_singles(kinds: &mut Vec<PlannedFault>, models: &[FaultModel]) -> Result<(), AllocError>
    ensures { OnOk result (kinds.new.items ≡ kinds.old.items ++ map first_fault models.now) }
{
    for model in models {
        kinds.push(first_fault(*model))?;
    }
    Ok(())
}

// Adds a fault of each of these models, and another within this many instructions after it.
fn push_pairs(
    kinds: &mut Vec<PlannedFault>,
    models: &[FaultModel],
    within: u32,
) -> Result<(), AllocError>
    ensures { OnOk result (kinds.new.items ≡ kinds.old.items ++ pairs_within models.now within) }
{
    for model in models {
        push_seconds(kinds, first_fault(*model), models, within)?;
    }
    Ok(())
}

// Adds a fault of this kind, and another of one of these models within this many instructions after it.
fn push_seconds(
    kinds: &mut Vec<PlannedFault>,
    kind: PlannedFault,
    models: &[FaultModel],
    within: u32,
) -> Result<(), AllocError>
    ensures { OnOk result (kinds.new.items ≡ kinds.old.items
        ++ seconds_within kind models.now within) }
{
    for before in 0..within {
        push_seconds_at(kinds, kind, models, before + 1)?;
    }
    Ok(())
}

// Adds a fault of this kind, and another of one of these models this many instructions after it.
fn push_seconds_at(
    kinds: &mut Vec<PlannedFault>,
    kind: PlannedFault,
    models: &[FaultModel],
    number: u32,
) -> Result<(), AllocError>
    ensures { OnOk result (kinds.new.items ≡ kinds.old.items
        ++ map (second_at kind number) models.now) }
{
    for model in models {
        kinds.push(second_at(kind, number, *model))?;
    }
    Ok(())
}

// A fault of this model at the first instruction.
const fn first_fault(model: FaultModel) -> PlannedFault
    ensures { result ≡ first_fault model }
{
    PlannedFault {
        instruction: 0,
        model,
        second: None,
    }
}

// A fault of this kind, and another of this model this many instructions after it.
const fn second_at(kind: PlannedFault, number: u32, model: FaultModel) -> PlannedFault
    ensures { result ≡ second_at kind number model }
{
    PlannedFault {
        second: Some(SecondFault { number, model }),
        ..kind
    }
}
