ghost use Rattle.std.specs.Prelude.{◌≡◌, ℕ, ◌+◌, ◌≤◌, List, [], ◌∷◌, ◌++◌, length, IfOk, IfErr, OnOk, OnErr};
ghost use Rattle.lama_model.specs.declared.calls.Call.{Call as SeenCall};
ghost use Rattle.lama_model.specs.declared.calls.Entry.{Entry as SeenEntry};

use lama_pages::Steps;
use std::sync::ledger::Ledger;

/// A value that serves calls one at a time and has a journal of those that it served, oldest first.
pub trait Kept: Drop {
    /// What a caller asks for.
    type Ask;

    /// What a served caller is given.
    type Answer;

    /// Why a call was not served.
    type Fault;

    // What no call changes: where the journal begins, for instance.
    ghost Setting: { Type 0 };

    // The value has this setting. It may have several.
    ghost fits: { Setting → Self → Type 0 };

    ghost journal: { Self → List SeenEntry };

    // How long the journal may grow without a want of memory.
    ghost room: { Self → ℕ };

    // The call that an ask names.
    ghost call: { Self.Ask → SeenCall };

    // The ask may be made after this journal.
    ghost may: { Setting → List SeenEntry → Self.Ask → Type 0 };

    // After this journal the ask is given this answer.
    ghost gives: { Setting → List SeenEntry → Self.Ask → Self.Answer → Type 0 };

    // After this journal, with so much room, the ask may come to this fault.
    ghost fails: { Setting → List SeenEntry → ℕ → Self.Ask → Self.Fault → Type 0 };

    // After this journal the ask makes no more pages than these.
    ghost bound: { Setting → List SeenEntry → Self.Ask → ℕ };

    /// How many calls the journal has.
    fn taken(&self) -> u32
        ensures { result ≡ length (journal self.now) };

    /// Serves a call, and puts it at the end of the journal. At `Err` the journal is as it was.
    fn serve<L: Ledger>(
        &mut self,
        caller: u16,
        ask: Self::Ask,
        pages: &mut Steps<L>,
    ) -> Result<Self::Answer, Self::Fault>
        requires { (s : Setting) × fits s self.old × may s (journal self.old) ask }
        ensures served { OnOk result (journal self.new ≡ journal self.old ++ record { caller = caller; call = call ask } ∷ []) }
        ensures few { length (journal self.new) ≤ 4294967295 }
        ensures answer { IfOk result (λ a. (s : Setting) → fits s self.old → gives s (journal self.old) ask a) }
        ensures unserved { OnErr result (journal self.new ≡ journal self.old) }
        ensures fault { IfErr result (λ f. (s : Setting) → fits s self.old → fails s (journal self.old) (room self.old) ask f) }
        ensures setting { (s : Setting) → fits s self.old → fits s self.new }
        ensures room { room self.old ≤ room self.new }
        ensures pages { (s : Setting) → fits s self.old → pages.new ≤ pages.old + bound s (journal self.old) ask };

    // An ask that may be made stays so, however the journal goes on.
    ghost stays: { (s : Setting) (seen more : List SeenEntry) (ask : Self.Ask) → may s seen ask → may s (seen ++ more) ask };

    // A fault that may come with some room may come with less.
    ghost lowers: { (s : Setting) (seen : List SeenEntry) (room less : ℕ) (ask : Self.Ask) (fault : Self.Fault) → less ≤ room → fails s seen room ask fault → fails s seen less ask fault };
}
