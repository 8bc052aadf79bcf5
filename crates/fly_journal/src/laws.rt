ghost use Rattle.fly_journal.specs.Laws.{LegalEntriesHaveLines};

/// Each entry of a legal journal has a line. The call does nothing: its contract is the law.
pub fn legal_entries_have_lines()
    ensures { LegalEntriesHaveLines }
{}
