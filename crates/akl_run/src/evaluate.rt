//! From a loaded query to the end of its run.

ghost use Rattle.std.specs.Prelude.{◌≡◌, ◌≤◌, [], IfOk, IfErr};
ghost use Rattle.box_tree.specs.Tables.{HasVariables, HasShownVariables};
ghost use Rattle.par_workers.specs.Crews.{lists};
ghost use Rattle.par_workers.specs.Runs.{HasRunMany};
ghost use Rattle.akl_run.specs.Reports.{AreAllPlannedLast};
ghost use Rattle.akl_args.specs.Flags.{no_flags};
ghost use Rattle.akl_run.specs.Evaluations.{HasFinished, HasModels, IsEvaluated, StopsRun};

use crate::loaded::Loaded;
use crate::models::models_of;
use crate::prepare::Prepared;
use crate::stop::Stop;
use akl_args::Flags;
use akl_model::Receipt;
use akl_outside::Gate;
use akl_terms::Program;
use par_workers::{Finished, run_many};
use seq_engine::{End, run_one};
use std::alloc::{AllocError, Global};
use std::sync::Wait;
use std::thread::Threads;
use step_commit::Core;
use tree_models::TreeModel;

/// A run that has ended, and what is shown of it.
#[derive(Drop)]
pub struct Evaluated {
    pub program: Program,
    pub core: Core,
    pub end: End,
    /// For each worker, its labels with their places in the journal.
    pub receipts: Vec<Vec<Receipt>>,
    pub flags: Flags,
    /// Where models are asked, one for each answer, in order.
    pub models: Vec<TreeModel>,
}

// Runs a core as worker 1 alone, to its end.
fn run_alone(alloc: Global, program: &Program, core: Core) -> Result<Finished, AllocError>
    requires program { program.now ≡ core.table.program }
    requires workers { core.workers ≡ 1 }
    requires begins { core.journal ≡ [] }
    ensures run { IfOk result (HasRunMany core) }
    ensures planned { IfOk result (λ f. AreAllPlannedLast (lists f.receipts.items)) }
{
    let run = run_one(alloc, program, core)?;
    let mut receipts = Vec::new(alloc);
    receipts.push(run.receipts)?;
    Ok(Finished {
        core: run.core,
        receipts,
        end: run.end,
    })
}

// Runs a loaded query as worker 1 alone, to its end. It needs no thread, no lock and no gate.
fn run_loaded_alone(alloc: Global, loaded: &Loaded, budget: u64) -> Result<Finished, AllocError>
    requires variables { HasVariables loaded.now.program loaded.now.query loaded.now.first_variable }
    requires shown { HasShownVariables loaded.now.query }
    ensures { IfOk result (HasFinished loaded.now 1 budget) }
{
    let program = &loaded.program;
    let first_variable = loaded.first_variable;
    let core = Core::new(alloc, program, &loaded.query, first_variable, 1, budget)?;
    run_alone(alloc, program, core)
}

// Runs a loaded query by so many workers, to its end.
fn run_loaded<R: Threads + Wait + Sync, G: Gate>(
    rt: &R,
    alloc: Global,
    loaded: &Loaded,
    workers: u32,
    budget: u64,
    gate: &G,
) -> Result<Finished, AllocError>
    requires variables { HasVariables loaded.now.program loaded.now.query loaded.now.first_variable }
    requires shown { HasShownVariables loaded.now.query }
    requires workers { (1 ≤ workers) × (workers ≤ 16) }
    ensures { IfOk result (HasFinished loaded.now workers budget) }
{
    if workers == 1 {
        return run_loaded_alone(alloc, loaded, budget);
    }
    let program = &loaded.program;
    let first_variable = loaded.first_variable;
    let core = Core::new(
        alloc,
        program,
        &loaded.query,
        first_variable,
        workers,
        budget,
    )?;
    run_many(rt, alloc, program, core, workers, gate)
}

// Runs a loaded query by so many workers, and makes the models of its answers where they are asked.
fn run_modelled<R: Threads + Wait + Sync, G: Gate>(
    rt: &R,
    alloc: Global,
    loaded: &Loaded,
    workers: u32,
    budget: u64,
    models: bool,
    gate: &G,
) -> Result<(Finished, Vec<TreeModel>), AllocError>
    requires variables { HasVariables loaded.now.program loaded.now.query loaded.now.first_variable }
    requires shown { HasShownVariables loaded.now.query }
    requires workers { (1 ≤ workers) × (workers ≤ 16) }
    ensures run { IfOk result (λ r. HasFinished loaded.now workers budget r.0) }
    ensures models { IfOk result (λ r. HasModels r.0.core models r.1.items) }
{
    let finished = run_loaded(rt, alloc, loaded, workers, budget, gate)?;
    let models = models_of(alloc, &loaded.program, &finished.core, models)?;
    Ok((finished, models))
}

/// Runs a loaded query as worker 1 alone, to its end. Nothing else is shown of it than its answers and its outcome.
pub fn evaluate_alone(alloc: Global, loaded: Loaded, budget: u64) -> Result<Evaluated, AllocError>
    requires variables { HasVariables loaded.program loaded.query loaded.first_variable }
    requires shown { HasShownVariables loaded.query }
    ensures { IfOk result (IsEvaluated loaded 1 budget no_flags) }
{
    let Finished {
        core,
        receipts,
        end,
    } = run_loaded_alone(alloc, &loaded, budget)?;
    Ok(Evaluated {
        program: loaded.program,
        core,
        end,
        receipts,
        flags: Flags::none(),
        models: Vec::new(alloc),
    })
}

/// Runs a query that is ready, and makes the models of its answers where they are asked.
pub fn evaluate<R: Threads + Wait + Sync, G: Gate>(
    rt: &R,
    alloc: Global,
    prepared: Prepared,
    gate: &G,
) -> Result<Evaluated, Stop>
    requires variables { HasVariables prepared.loaded.program prepared.loaded.query prepared.loaded.first_variable }
    requires shown { HasShownVariables prepared.loaded.query }
    requires workers { (1 ≤ prepared.workers) × (prepared.workers ≤ 16) }
    ensures run { IfOk result (IsEvaluated prepared.loaded prepared.workers prepared.budget prepared.flags) }
    ensures stop { IfErr result StopsRun }
{
    let Prepared {
        loaded,
        workers,
        budget,
        flags,
    } = prepared;
    match run_modelled(rt, alloc, &loaded, workers, budget, flags.model, gate) {
        Ok(
            (
                Finished {
                    core,
                    receipts,
                    end,
                },
                models,
            ),
        ) => Ok(Evaluated {
            program: loaded.program,
            core,
            end,
            receipts,
            flags,
            models,
        }),
        Err(error) => Err(Stop::from(error)),
    }
}
