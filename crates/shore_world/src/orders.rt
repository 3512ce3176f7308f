//! What is promised of a world on the order of its transactions, one of which may be prepared while others commit. Each law is stated as the contract of an empty function.
ghost use Rattle.std.specs.Prelude.{ℕ, List, false, true};
ghost use Rattle.shore_model.specs.Histories.{decisions, in_doubt, shown};
ghost use Rattle.shore_model.specs.declared.calls.Call.{Call};
ghost use Rattle.shore_model.specs.declared.histories.Entry.{Entry};
ghost use Rattle.shore_model.specs.declared.histories.Opening.{Opening};
ghost use Rattle.laws_lives.specs.Sessions.{txns_of};
ghost use Rattle.laws_lives.specs.Soundness.{history_from, serial_after};
ghost use Rattle.laws_lives.specs.Views.{IsAmong};
ghost use Rattle.laws_orders.specs.InTurns.{IsInOrder, RunInTurns, SoundInOrder};
ghost use Rattle.shore_world.specs.declared.world.World.{World};
ghost use Rattle.shore_world.specs.Lives.{DumpsShow};
ghost use Rattle.shore_world.specs.Promises.{IsManagerOf};

use shore_disk::Disk;

/// One serial order: that of turns, which are prepares, and commits of those that did not prepare. Each transaction that has a turn was answered as it might have been alone, on the records of those before its turn, each laid
/// over at its own: those that were committed before it, and any of those prepared before it and not decided yet (`sound`). The order of turns leaves what the order of commits leaves (`order`). So the committed
/// transactions may have run alone, one after another in the order of their turns, each with the answers that it had, and leave the serial records (`committed`), over which `records_are_in_place` lays those
/// under way. With those in doubt at their prepares as well they leave what is shown, and what each dump shows if nobody else is under way (`shown`).
pub fn transactions_run_in_the_order_of_their_turns<L: Disk, V: Disk>()
    ensures sound { (w : World L V L.Disk V.Disk) (o : Opening) (es : List Entry) (ws : List (ℕ × Call)) → IsManagerOf w o es ws → SoundInOrder (history_from o es) }
    ensures order { (w : World L V L.Disk V.Disk) (o : Opening) (es : List Entry) (ws : List (ℕ × Call)) → IsManagerOf w o es ws → IsInOrder (history_from o es) }
    ensures committed { (w : World L V L.Disk V.Disk) (o : Opening) (es : List Entry) (ws : List (ℕ × Call)) → IsManagerOf w o es ws →
        RunInTurns (history_from o es) (λ t. false) (decisions es) (serial_after o es) }
    ensures shown { (w : World L V L.Disk V.Disk) (o : Opening) (es : List Entry) (ws : List (ℕ × Call)) → (k : IsManagerOf w o es ws) →
        RunInTurns (history_from o es) (λ t. true) (decisions es) (shown (history_from o es) (decisions es))
        × (((t : ℕ) → IsAmong t (txns_of k.now.state.sessions.active) → (global : List ℕ) × IsAmong (t, global) (in_doubt o.in_doubt (decisions es))) →
        DumpsShow w (shown (history_from o es) (decisions es))) }
{}
