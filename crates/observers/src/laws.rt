//! How an observer begins.

ghost use Rattle.observers.specs.Laws.{ObserversBegin};

/// An observer that has the token of a watcher which has just begun, and no snapshots, is between two looks, however many it is to take.
pub fn observers_begin()
    ensures { ObserversBegin }
{}
