ghost use Rattle.std.specs.Prelude.{◌≡◌, ℕ};
ghost use Rattle.mgn_params.specs.Tables.{Tables};
ghost use Rattle.mgn_machine.specs.State.{State};
ghost use Rattle.mgn_machine.specs.Portfolios.{Portfolio};
ghost use Rattle.mgn_machine.specs.Room.{requirement_of, room_of, worth_of};
ghost use Rattle.mgn_book.specs.FilledAtLimit.{FillsAtLimit};

/// A law, and no work: a FILL that is done at the limit of its hold leaves what the portfolios that count the hold
/// require as it was, and their worth, and their room.
pub fn done_fill_at_limit_keeps_room()
    ensures requirement { (set : Tables) (old new : State) (p : Portfolio) (u : ℕ) → FillsAtLimit set old new p
        → requirement_of set new.accounts u p ≡ requirement_of set old.accounts u p }
    ensures worth { (set : Tables) (old new : State) (p : Portfolio) (u : ℕ) → FillsAtLimit set old new p
        → worth_of set new.accounts u p ≡ worth_of set old.accounts u p }
    ensures room { (set : Tables) (old new : State) (p : Portfolio) (u : ℕ) → FillsAtLimit set old new p
        → room_of set new.accounts u p ≡ room_of set old.accounts u p }
{}
