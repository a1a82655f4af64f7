//! What is true of every room, whatever the seed is and whatever happens.
ghost use Rattle.mw_laws.specs.Applied.{ClientsApply};
ghost use Rattle.mw_laws.specs.Bounced.{BouncesReach};
ghost use Rattle.mw_laws.specs.Clients.{ClientsFollow};
ghost use Rattle.mw_laws.specs.Hinted.{HintsStand, HintsCostOnce, SlotsNeverOwe};
ghost use Rattle.mw_laws.specs.Items.{ItemsComeOnce, OwnersShare};
ghost use Rattle.mw_laws.specs.Journals.{JournalsGrow};
ghost use Rattle.mw_laws.specs.Kept.{LivesKeep};
ghost use Rattle.mw_laws.specs.Naming.{JournalsAreNamed};
ghost use Rattle.mw_laws.specs.Shows.{ShownIsChecked};
ghost use Rattle.mw_laws.specs.Silence.{NoTextIsTold};
ghost use Rattle.mw_laws.specs.Stored.{GetsAreAnswered, KeysStay, RefusedSetsChangeNothing};
ghost use Rattle.mw_laws.specs.Stored.{RecordedIsGot, SetsAreGot, SetsAreTold};
ghost use Rattle.mw_laws.specs.Strangers.{StrangersHear, SlotsStay, StrangersAreAnswered, StrangersHearNoOthers};
ghost use Rattle.mw_laws.specs.Tails.{TailsOfTheLastView, TakenWasOwed};
ghost use Rattle.mw_laws.specs.Told.{EventsTell};
ghost use Rattle.mw_laws.specs.Views.{ViewsGrow, WholeViewsAreOwed};
ghost use Rattle.mw_laws.specs.Watched.{WatchersStay};

/// A session that plays no slot was only ever owed RoomInfo, refusals of its Connects, the names of
/// games, and word of what was no packet, whatever else happened in the room.
pub fn strangers_hear()
    ensures { StrangersHear }
{}

/// A session that plays a slot plays that one, in the same team, as long as it is open.
pub fn slots_stay()
    ensures { SlotsStay }
{}

/// A session that plays no slot is owed nothing by what it sends but a refusal, the names of games
/// or word of what was no packet, or that it plays a slot now, with its whole view; and what it
/// sends records nothing.
pub fn strangers_are_answered()
    ensures { StrangersAreAnswered }
{}

/// What others do owes a session that plays no slot nothing.
pub fn strangers_hear_no_others()
    ensures { StrangersHearNoOthers }
{}

/// An event leaves of each session what it owes it, in one message that carries the journal's
/// length, and opens or closes one.
pub fn events_tell()
    ensures { EventsTell }
{}

/// A room keeps its seed, and its journal only grows at its end.
pub fn journals_grow()
    ensures { JournalsGrow }
{}

/// Through one mask, what a slot received only grows at its end.
pub fn views_grow()
    ensures { ViewsGrow }
{}

/// A Connect that isn't refused, a Sync and another mask owe their session its whole view, from
/// index 0; all else owes a session what its view grows by, from its length before.
pub fn whole_views_are_owed()
    ensures { WholeViewsAreOwed }
{}

/// A client that puts the items of each ReceivedItems into its list from their index on has in it
/// just what its mask keeps of what its slot received, however sessions came, asked and went.
pub fn clients_follow()
    ensures { ClientsFollow }
{}

/// No check stands twice in what a journal comes to, so a slot receives nothing twice from one
/// location, whatever was checked, released or collected. This holds of every journal, and so of
/// each that a run of lives comes to.
pub fn no_item_twice()
    ensures { ItemsComeOnce }
{}

/// What came for a receiver is the same, in the same order, for each of its owners: each member of
/// a group gets each of the group's items, whoever found it.
pub fn shared_items_are_one()
    ensures { OwnersShare }
{}

/// What is checked stays checked as a journal grows, a hint of it shows that it is found, and a
/// hint stands, with another status at most.
pub fn found_stays()
    ensures { HintsStand }
{}

/// A location of a slot has one hint in a team at most, so none is paid for twice, and to make one
/// again changes nothing.
pub fn paid_once()
    ensures { HintsCostOnce }
{}

/// A session with the tag NoText is owed no print, and all else that it would be owed with any
/// other tags, but for a Bounce that names it by the one tags alone.
pub fn no_text()
    ensures { NoTextIsTold }
{}

/// No slot ever pays more than its checked locations are worth, so its points are what they are
/// worth, less what it paid.
pub fn slots_never_owe()
    ensures { SlotsNeverOwe }
{}

/// A key of the data storage keeps its value, or isn't kept, as long as no session sends a Set of
/// it, whatever else happens.
pub fn keys_stay()
    ensures { KeysStay }
{}

/// A Get of a session that plays a slot is answered by the values of just the keys that it asks
/// for, and changes nothing.
pub fn gets_are_answered()
    ensures { GetsAreAnswered }
{}

/// Once a session that plays a slot has sent a Set that isn't refused, its new value is what each
/// Get of the key is answered, until another Set of it comes.
pub fn set_is_got()
    ensures { SetsAreGot }
{}

/// What the last record of a key holds is what each Get of the key is answered, in the life that
/// recorded it and in each later one whose journal has the record.
pub fn recorded_is_got()
    ensures { RecordedIsGot }
{}

/// A Set that is refused is answered by why it is, and changes nothing.
pub fn refused_sets_change_nothing()
    ensures { RefusedSetsChangeNothing }
{}

/// A Set that isn't refused is told to just those who watch its key, and to its sender where it
/// asks for that, and records the new value where it is another.
pub fn sets_are_told()
    ensures { SetsAreTold }
{}

/// A session watches the keys that its SetNotify names, up to 1,024, as long as it is open.
pub fn watchers_stay()
    ensures { WatchersStay }
{}

/// A Bounce of a session that plays a slot is told to just those of its team whom it names, and
/// changes nothing.
pub fn bounces_reach()
    ensures { BouncesReach }
{}

/// Over the calls and crashes of a room's lives its seed stays. Within a life the journal only grows
/// at its end, by the records of calls that are answered as done; a commit, and a take that shows
/// what isn't committed, commit all of it. A crash leaves what is committed, and maybe some of the
/// first records that aren't: so what is committed stays at the front of each later journal.
pub fn lives_keep()
    ensures { LivesKeep }
{}

/// All that a session takes, in any life of any run of calls and crashes, is the texts of messages
/// that events of this life owed to it; none carries more than the journal's length, and none that
/// it takes more than is then committed.
pub fn taken_was_owed()
    ensures { TakenWasOwed }
{}

/// Each ReceivedItems that an event owes, in any life of any run, has as items the tail from its
/// index of what the session's mask kept of what its slot received at that event; these stand at
/// that index in the view by the journal of each later point of the life, and once the session took
/// the message, by that of each later point of the run, over crashes too.
pub fn tails_of_the_last_view()
    ensures { TailsOfTheLastView }
{}

/// A client of the network protocol, which takes the items of index 0 for its list, appends those
/// that come at its list's length, and asks for Sync at any other index, never asks for Sync,
/// whatever front of what its session was owed it heard, in any life of any run. Its list is a
/// front of what the session's mask keeps of what its slot received, by the journal of each later
/// point of the life, and where it heard what was taken alone, of each later point of the run. It is
/// all of the view once it heard all that its session was owed, unless that is overrun. This
/// holds as long as the mask stays as it was connected; after another mask, that it never asks and
/// has a front holds from the first ReceivedItems on.
pub fn clients_apply()
    ensures { ClientsApply }
{}

/// What the messages that a session was owed show to be checked, in any life of any run, is checked
/// by the journal of each later point of the life, and of those that it takes, by the journal of
/// each later point of the run, over crashes too: the locations of Connected and RoomUpdate,
/// those of the items of ReceivedItems and of prints that tell of an item sent or of a hint that is
/// found, and those of found hints that a Get is answered.
pub fn shown_is_checked()
    ensures { ShownIsChecked }
{}

/// Whatever calls and crashes come, the records of the journal, and those that a crash leaves of it,
/// name only teams, slots and locations that the seed has, where no slot has more names than
/// there are teams, and each location is one of a slot that is there; and so it is in each life that
/// begins with such records, whoever wrote them. So a room that takes only such records can be made
/// anew from what a crash left of any life.
pub fn journals_are_named()
    ensures { JournalsAreNamed }
{}
