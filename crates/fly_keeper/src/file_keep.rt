ghost use Rattle.std.specs.Prelude.{◌≡◌, ◌≤◌, drop, length, IfOk, Ok};
ghost use Rattle.fly_keeper.specs.JournalText.{journal_text};
ghost use Rattle.fly_keeper.specs.Gains.{GainsBy};

use fly_journal::{legal_entries_have_lines, write_line};
use fly_ports::Files;
use fly_state::Plan;
use fly_types::NoMemory;
use fly_work::{Keep, KeepFault};
use fly_world::World;
use std::alloc::Global;

/// Keeps the journal of runs of a plan in a file, to which it appends a line for each entry.
#[derive(Drop)]
pub struct FileKeep<'k, F: Files> {
    files: &'k mut F,
    path: &'k str,
    plan: &'k Plan,
}

impl<'k, F: Files> FileKeep<'k, F> {
    /// A keeper of journals of the plan, in the file at the path.
    pub fn new(files: &'k mut F, path: &'k str, plan: &'k Plan) -> FileKeep<'k, F>
        ensures reference { result.files.ghost_name ≡ files.entry.ghost_name }
        ensures files { result.files.now ≡ files.old }
        ensures path { result.path.now ≡ path.now }
        ensures plan { result.plan.now ≡ plan.now }
    {
        FileKeep { files, path, plan }
    }
}

/// The lines of the entries of a store from a place on.
fn lines_from(alloc: Global, p: &Plan, w: &World<'_>, from: u64) -> Result<Vec<u8>, NoMemory>
    requires own { w.now.plan ≡ p.now }
    requires within { from ≤ length w.now.world.entries }
    ensures { IfOk result (λ text. text.items ≡ journal_text p.now (drop from w.now.world.entries)) }
{
    // By these each entry has a line.
    w.legal_journal();
    legal_entries_have_lines();
    let mut text = Vec::new(alloc);
    for place in from..w.len() {
        let line = write_line(alloc, p, w.entry(place))?;
        text.extend_from_slice(&line)?;
    }
    Ok(text)
}

impl<'k, F: Files> Keep for FileKeep<'k, F> {
    ghost use Rattle.std.specs.Prelude.{◌≡◌, ◌≤◌, drop, length, Ok};
    ghost use Rattle.fly_state.specs.Plans.{RunPlan};
    ghost use Rattle.fly_work.specs.Keepers.{KeepsFrom};
    ghost use Rattle.fly_keeper.specs.Kept.{KeepsLines, KeepsPart, TakesOwn, keep_faults};
    ghost use Rattle.fly_keeper.specs.KeptLaws.{keeps-none, keeps-both, keeps-first};

    ghost kept = { KeepsLines F.state };

    ghost kept_part = { KeepsPart F.state };

    ghost takes = { TakesOwn };

    ghost faults = { keep_faults F.state };

    fn keep(&mut self, alloc: Global, w: &World<'_>, from: u64) -> Result<(), KeepFault>
        requires takes { TakesOwn self.old w.now.plan }
        requires within { from ≤ length w.now.world.entries }
        ensures kept { KeepsFrom (KeepsLines F.state) (KeepsPart F.state) (keep_faults F.state) self.old
            (drop from w.now.world.entries) self.new result }
        ensures takes { (plan : RunPlan) → TakesOwn self.old plan → TakesOwn self.new plan }
        ensures none { from ≡ length w.now.world.entries → (result ≡ Ok _) × (self.new ≡ self.old) }
    {
        if from == w.len() {
            return Ok(());
        }
        let text = lines_from(alloc, self.plan, w, from)?;
        match self.files.append(self.path, &text) {
            Ok(()) => Ok(()),
            Err(_) => Err(KeepFault::Failed),
        }
    }

    ghost keeps_none = { keeps-none F.state };

    ghost keeps_both = { keeps-both F.state };

    ghost keeps_first = { keeps-first F.state };
}

/// Keeps the entries of a store from a place on in the file at the path. Where no memory is found nothing was kept.
pub fn keep_journal<F: Files>(
    alloc: Global,
    p: &Plan,
    w: &World<'_>,
    files: &mut F,
    path: &str,
    from: u64,
) -> Result<(), KeepFault>
    requires own { w.now.plan ≡ p.now }
    requires within { from ≤ length w.now.world.entries }
    ensures gains { GainsBy (F.state files.old) (F.state files.new) path.now
        (journal_text p.now (drop from w.now.world.entries)) result }
    ensures none { from ≡ length w.now.world.entries → (result ≡ Ok _) × (files.new ≡ files.old) }
{
    let mut keep = FileKeep::new(files, path, p);
    keep.keep(alloc, w, from)
}
