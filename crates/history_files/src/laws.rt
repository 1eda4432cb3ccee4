// What is proved of the effects of histories: each function says it, and does nothing.
ghost use Rattle.history_files.specs.Laws.{ActsAddTheirEffect, EndsAddNone, StartsAddNone, NextEffectsMayBePrepared};
ghost use Rattle.history_files.specs.Groups.{GroupsComeTo, GroupsAreSettled};
ghost use Rattle.history_files.specs.NextGroups.{GroupsMayBePrepared};

/// An act adds its effect to those of the history on its subsystem, and neither a start nor an end adds any.
pub fn events_add_effects()
    ensures act { ActsAddTheirEffect }
    ensures end { EndsAddNone }
    ensures start { StartsAddNone }
{}

/// The effect of each act that a history may go on with may be prepared in its store.
pub fn next_effects_may_be_prepared()
    ensures { NextEffectsMayBePrepared }
{}

/// The effects of several acts and ends that a history may go on with may be prepared together, each behind those before it.
pub fn groups_may_be_prepared()
    ensures { GroupsMayBePrepared }
{}

/// Once the effects of a group are prepared, the books come to the effects of the history with all its events, which has them;
/// committed, they have those effects.
pub fn books_come_to_groups<B: Drop>()
    ensures prepared { GroupsComeTo B }
    ensures committed { GroupsAreSettled B }
{}
