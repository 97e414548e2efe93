/// What the slot of a place is given: it shows contracts the day up to its entry.
pub trait Shows: Drop {
    ghost use Rattle.mgn_day.specs.Days.{Day};

    ghost shown: { Self → Day };
}
