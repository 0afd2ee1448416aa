//! The laws of letters over moving connections.
//!
//! The functions do nothing. Each promises the law that it names.
#![tactic(auto)]

ghost use Rattle.law_mailbox.specs.Accepted.{SendsAreAccepted};
ghost use Rattle.law_mailbox.specs.AlwaysFew.{BeginningIsFew, QueueEntriesAreBounded, WorkAlwaysFindsRoom};
ghost use Rattle.law_mailbox.specs.Answered.{EventsLeaveFurnished, FirstIsFurnished, SendsAreAnswered, SendsLeaveFurnished, StoresLeaveFurnished, WorksLeaveFurnished};
ghost use Rattle.law_mailbox.specs.Arrived.{LettersAreGiven, OpenLettersWereSent};
ghost use Rattle.law_mailbox.specs.Beginning.{BeginningIsHeld};
ghost use Rattle.law_mailbox.specs.Calls.{SendsAreKept, StoresAreKept, WorksAreKept};
ghost use Rattle.law_mailbox.specs.Delivered.{AllIsDelivered};
ghost use Rattle.law_mailbox.specs.Ending.{EndsEndSo, NoRequestIsRefused};
ghost use Rattle.law_mailbox.specs.Example.{OneLetterIsDelivered, OneLetterIsSeenCalm};
ghost use Rattle.law_mailbox.specs.Few.{FewHaveRoom, StepsKeepFew, WorksKeepFew};
ghost use Rattle.law_mailbox.specs.Finished.{BeginsSo, CopiedLettersAreGiven, DuesAreSeen, EventsKeepSo, FinishedWorkDeliversAll, NoneIsFull, WorksAreSeen, WorksKeepSo};
ghost use Rattle.law_mailbox.specs.Flagged.{FlagsAreTrue};
ghost use Rattle.law_mailbox.specs.Headers.{HeadersAreRead, MessagesAreRead};
ghost use Rattle.law_mailbox.specs.Held.{KeepingIsEnough};
ghost use Rattle.law_mailbox.specs.Moves.{MovesKeep};
ghost use Rattle.law_mailbox.specs.Over.{SendsAreAnsweredAfterWork, StoppedWorkIsOver};
ghost use Rattle.law_mailbox.specs.Postings.{PostingsAreMade};
ghost use Rattle.law_mailbox.specs.Plans.{StepsBuildNothing, VerbsBuildNothing};
ghost use Rattle.law_mailbox.specs.Room.{StepsAddNoLoad};
ghost use Rattle.law_mailbox.specs.Seen.{OwnStepsAreSeen, StepsSeenAsMovesKeep};
ghost use Rattle.law_mailbox.specs.Seen.{InnerStepsAreSeen, InnerStepsKeep, OtherStepsAreSeen, ReadStepsAreSeen, RunStepsAreSeen};
ghost use Rattle.law_mailbox.specs.Ready.{IsReadyMail};
ghost use Rattle.law_mailbox.specs.Stops.{DueWorkIsBounded, WorkStopsInTime};
ghost use Rattle.law_mailbox.specs.Reached.{AllIsPosted, LettersAreHereAfterSettling, LettersAreKeptWhereWorkFindsRoom};
ghost use Rattle.law_mailbox.specs.Settled.{MovesAreAhead, MovesKeepPosted, ThreeRoundsAreEnough, WorkKeepsPosted, WorksGoAhead};
ghost use Rattle.law_mailbox.specs.Tied.{CountsAreTied};
ghost use Rattle.law_mailbox.specs.Whole.{AllIsKept, LettersAreTakenWhole};
ghost use Rattle.law_mailbox.specs.Works.{WorkKeeps};
ghost use Rattle.mailbox_rules.specs.Theorem.{LettersAreKept};

use law_settling::steps::settling_is_named;
use law_simulation::relation::starts;
use law_simulation::runs::{events_follow, steps_are_named};

/// A header reads back as it was written, whatever follows it; and a message as the letter that it carries.
pub fn headers_are_read()
    ensures header { HeadersAreRead }
    ensures message { MessagesAreRead }
{}

/// Each open letter is one that was sent, under its place among those; and the places rise.
pub fn open_letters_were_sent()
    ensures { OpenLettersWereSent }
{}

/// Where what has arrived are the open letters whose messages were copied, with the bodies that are here, a letter that is taken is
/// the first open one with the asked tag, whole; none is given exactly where there is none or its bytes are not here; and the
/// same holds after a letter was taken.
pub fn letters_are_given()
    ensures { LettersAreGiven }
{}

/// Where what is held at the beginning is kept by the machine's inner steps, by steps of work, and by letters that are stored and
/// posted, it is held after any calls; and then a letter that is taken is the first open one with the asked tag, whole, and none
/// is given exactly where its bytes are not here.
pub fn keeping_is_enough()
    ensures { KeepingIsEnough IsReadyMail }
{
    events_follow();
    settling_is_named();
}

/// What is held between calls is held before the first one, with 1 to 8 senders: the world stands for a machine in which each
/// connection has its two ends, its regions and queues, and 16 receives at each end, nothing was sent, and nothing is due; and no
/// completion stands in the receiver's queue.
pub fn beginning_is_held()
    ensures held { BeginningIsHeld }
    ensures few { BeginningIsFew }
{
    starts();
    steps_are_named();
}

/// What an inner step of the machine changes of what is seen of one connection keeps what is true of it: where bytes of messages and
/// bodies are put, where Reads have their turn, are offered, land and are told, and where an end fails.
pub fn moves_keep()
    ensures { MovesKeep }
{}

/// What work does on one connection keeps what is true of it, and so does a letter that is stored or sent: messages and bodies are
/// copied whole and in order, places are posted again, bodies are fetched from the slot while it holds them, and it is freed.
pub fn work_keeps()
    ensures { WorkKeeps }
{}

/// Where each inner step of the machine is seen as such moves, it keeps what is held between calls.
pub fn steps_seen_as_moves_keep()
    ensures { StepsSeenAsMovesKeep }
{}

/// The steps of a connection's ends that move no bytes are seen as moves, and what the opening made stays: an end knows more of a
/// request, a request meets no receive, an expiry or a wait is counted or ends its end, an end learns of a refusal, a Read has its
/// turn, a request is told.
pub fn own_steps_are_seen()
    ensures { OwnStepsAreSeen }
{}

/// The steps of a connection's ends that move bytes of Reads are seen as moves, and so are refusals, and what the opening made stays:
/// bytes of a body are offered as they stand in the slot, they land in the landing place, and an end that refuses has ended. No end
/// makes an atomic act, and to the sender's end nothing is offered.
pub fn read_steps_are_seen()
    ensures { ReadStepsAreSeen }
{}

/// A Run of an end of a connection is seen as moves, and what the opening made stays: more bytes of a message are in its place, or it
/// is whole and to be copied; or a Send of no bytes acts, and a slot is to be freed.
pub fn run_steps_are_seen()
    ensures { RunStepsAreSeen }
{}

/// All these steps of another connection's ends are not seen, but for what becomes due on that connection, and what the opening made
/// stays.
pub fn other_steps_are_seen()
    ensures { OtherStepsAreSeen }
{}

/// With any number of senders, each enabled inner step of the machine is seen of each connection as moves; so it keeps what is held
/// between calls.
pub fn inner_steps_keep()
    ensures seen { InnerStepsAreSeen }
    ensures kept { InnerStepsKeep }
{}

/// Any number of steps of work keep what is held: each thing that is due is done, or is left where its end has ended or its context
/// is carried, and completions that are polled make due what they made due while they stood in their queue.
pub fn works_are_kept()
    ensures { WorksAreKept }
{
    steps_are_named();
}

/// A letter that is stored in part keeps what is held, and so does one that is stored and not posted: the slot is written only where
/// it is free, and the staging bytes lie beside it.
pub fn stores_are_kept()
    ensures { StoresAreKept }
{
    steps_are_named();
}

/// The contexts consist of what the opening made, at all times: it is so before the first call, and nothing is made or dropped by events
/// of the network, by work, or where a letter is stored or posted.
pub fn contexts_stay_furnished()
    ensures first { FirstIsFurnished }
    ensures events { EventsLeaveFurnished }
    ensures works { WorksLeaveFurnished }
    ensures stores { StoresLeaveFurnished }
    ensures sends { SendsLeaveFurnished }
{
    starts();
    steps_are_named();
}

/// Where the contexts consist of what the opening made and no completion stands in a sender's queue, the posting of a stored letter that
/// may be sent is answered Done, or is refused since the packet numbers are used up: its end and its queue have room, and its device
/// has pages for it.
pub fn sends_are_answered()
    ensures { SendsAreAnswered }
{
    steps_are_named();
}

/// A letter that is stored and posted keeps what is held, where its posting is answered Done, or is refused since the packet numbers
/// are used up.
pub fn sends_are_kept()
    ensures { SendsAreKept }
{
    steps_are_named();
}

/// A Read and a Send of no bytes that are due at an end of the receiver that lives are posted where the receiver lives and its queue has
/// room, unless the packet numbers of the end are used up; no other refusal comes.
pub fn postings_are_made()
    ensures { PostingsAreMade }
{
    steps_are_named();
}

/// With 1 to 8 senders, each kind of thing that happens keeps what is held, and that contexts consist of what the opening made and little
/// is owed; so the work before a letter is posted stops.
pub fn all_is_kept()
    ensures { AllIsKept }
{
    beginning_is_held();
    inner_steps_keep();
    works_are_kept();
    sends_are_kept();
    stores_are_kept();
    contexts_stay_furnished();
    sends_are_answered_after_work();
    due_work_is_bounded();
    work_stops_in_time();
    settling_is_named();
}

/// So after any calls, with 1 to 8 senders, a letter that is taken is the first open one with the asked tag, whole, and none is given
/// exactly where its bytes are not here.
pub fn letters_are_taken_whole()
    ensures { LettersAreTakenWhole }
{
    all_is_kept();
    keeping_is_enough();
}

/// Inner steps of the machine, and stores, loads, postings and polls, build nothing: the contexts stay, and each has as many regions,
/// completion queues and ends as before, with the same names, lengths and capacities.
pub fn nothing_is_built()
    ensures steps { StepsBuildNothing }
    ensures verbs { VerbsBuildNothing }
{}

/// Unless a receiver's end is over, a Read is posted or due for each long letter that was copied, and a Send of no bytes for each body
/// that was copied. Moves keep that, and so do work and letters that are sent, where no Read and no Send of no bytes is refused.
pub fn all_stays_posted()
    ensures moves { MovesKeepPosted }
    ensures work { WorkKeepsPosted }
{}

/// Moves never go back: what was copied, what acted and what was told stays so. Neither does work, and it keeps what is true of a
/// connection, and what is posted, where it refuses no Read and no Send of no bytes but at an end that is over.
pub fn progress_is_monotone()
    ensures moves { MovesAreAhead }
    ensures work { WorksGoAhead }
{}

/// Three rounds of a settling that leaves nothing and of work that leaves nothing due copy all messages and all bodies and free the slot,
/// where the ends live at the end: the first copies the messages, the second the bodies, and the third frees the slot.
pub fn three_rounds_are_enough()
    ensures { ThreeRoundsAreEnough }
{}

/// Where all messages and all bodies of a sender are copied, each open letter that is asked for is given; and where it has no untold
/// request and its slot is free, or it is carried, none of its letters is refused as Full.
pub fn copied_letters_are_given()
    ensures given { CopiedLettersAreGiven }
    ensures room { NoneIsFull }
{}

/// Where work stops by itself and the receiver's queue has room, everything is here after settling and working three times with nothing
/// left and no end ended: each open letter that is asked for is given, and none is refused as Full.
pub fn finished_work_delivers_all()
    ensures { FinishedWorkDeliversAll }
{
    events_follow();
    settling_is_named();
    steps_are_named();
    stopped_work_is_over();
}

/// A thing that is due, where it is done, is seen of each connection as steps of work that refuse no Read and no Send of no bytes but at
/// an end that is over, where the receiver's queue has room.
pub fn dues_are_seen()
    ensures { DuesAreSeen }
{
    steps_are_named();
}

/// Any number of steps of work are seen so, where the receiver's queue has room all the while.
pub fn works_are_seen()
    ensures { WorksAreSeen }
{
    steps_are_named();
}

/// That all is posted is true at the beginning, and is kept by events of the network, and by any steps of work where the receiver's queue
/// has room all the while.
pub fn posting_goes_on()
    ensures begins { BeginsSo }
    ensures events { EventsKeepSo }
    ensures works { WorksKeepSo }
{
    beginning_is_held();
    events_follow();
    steps_are_named();
}

/// Work that stops has done all that it can: nothing is owed in a context that lives, and its completion queue is empty.
pub fn stopped_work_is_over()
    ensures { StoppedWorkIsOver }
{
    steps_are_named();
}

/// A letter that may be sent is posted, unless the packet numbers of its end are used up, where the work before it stopped in time
/// and nothing was made since the opening.
pub fn sends_are_answered_after_work()
    ensures { SendsAreAnsweredAfterWork }
{
    steps_are_named();
    sends_are_answered();
    stopped_work_is_over();
}

/// Any steps of work leave it so that in each context no more is owed than one poll makes due: a context is polled where nothing that is
/// owed in it can be done, and a carried one answers no completions.
pub fn due_work_is_bounded()
    ensures { DueWorkIsBounded }
{
    steps_are_named();
}

/// Where little is owed and no queue has more completions than the receiver's may have, work is over before its steps are used up: each
/// step lowers a number that is no more than that at the beginning.
pub fn work_stops_in_time()
    ensures { WorkStopsInTime }
{
    steps_are_named();
}

/// An inner step of the machine adds nothing to the entries of a completion queue and what is reserved there: what it completes was
/// reserved.
pub fn steps_add_no_load()
    ensures { StepsAddNoLoad }
{}

/// An inner step of the machine keeps it so that few completions stand in the receiver's queue: those that it adds are of one
/// connection, and complete receives and requests that its end had left.
pub fn steps_keep_few()
    ensures { StepsKeepFew }
{}

/// Any number of steps of work keep it that few completions stand in the receiver's queue and few of its places are reserved: a poll takes
/// all completions that stand there, each message that is to be copied takes the place of one receive, and at most one long letter waits
/// for its body, so that few requests are not told or are to be posted.
pub fn works_keep_few()
    ensures { WorksKeepFew }
{
    steps_are_named();
}

/// At most 18 places of the receiver's queue are taken or reserved for each sender: those of its 16 receives, and of two requests, since
/// at most one long letter waits for its slot to be freed. So the queue has room.
pub fn few_have_room()
    ensures { FewHaveRoom }
{}

/// With 1 to 8 senders, after any calls few completions stand in the receiver's queue, and few places of it are reserved.
pub fn queue_entries_are_bounded()
    ensures { QueueEntriesAreBounded }
{
    steps_keep_few();
    works_keep_few();
    beginning_is_held();
    all_is_kept();
    sends_are_answered_after_work();
    work_stops_in_time();
    steps_are_named();
    events_follow();
    settling_is_named();
}

/// So the work of each call finds room in that queue all the while.
pub fn work_finds_room()
    ensures { WorkAlwaysFindsRoom }
{
    queue_entries_are_bounded();
    works_keep_few();
    few_have_room();
    contexts_stay_furnished();
}

/// With 1 to 8 senders, where the work of each call finds room in the receiver's queue all the while, all is posted after any calls:
/// a Read for each long letter that was copied, and a Send of no bytes for each body, unless one is still due or the receiver's end is
/// over.
pub fn all_is_posted()
    ensures { AllIsPosted }
{
    posting_goes_on();
    sends_are_answered_after_work();
    all_is_kept();
    steps_are_named();
    settling_is_named();
    work_stops_in_time();
}

/// After any calls, an end counts as ended only where it is in Error, or where so many letters were sent that its packet numbers may be
/// used up: a completion with an error stands only where its end is in Error, and a posting is refused so for nothing else.
pub fn flags_are_true()
    ensures { FlagsAreTrue }
{
    steps_keep_few();
    works_keep_few();
    beginning_is_held();
    sends_are_answered_after_work();
    all_is_kept();
    steps_are_named();
    events_follow();
    settling_is_named();
    work_stops_in_time();
    starts();
}

/// After any calls a letter is accepted exactly where its sender is known and not carried, the body is no longer than a slot, fewer than
/// 16 Sends of the sender are untold and, for a body that is fetched, each long letter before has freed the slot: unless the sender's end
/// is in Error, or 2 ^ 48 letters were sent. And a letter is refused as Ended for these two alone.
pub fn sends_are_accepted()
    ensures { SendsAreAccepted }
{
    steps_keep_few();
    works_keep_few();
    beginning_is_held();
    sends_are_answered_after_work();
    stopped_work_is_over();
    all_is_kept();
    steps_are_named();
    events_follow();
    settling_is_named();
    work_stops_in_time();
    starts();
}

/// After any calls and work, what is counted of a connection is tied to what the packetless machine did: no message is copied before its
/// Send acted, and no body before its Read was told; and where the receiver is not carried all of these are copied. So `take` gives the
/// first open letter with the asked tag exactly where its Send acted and its Read was told, unless the receiver's end is in Error.
pub fn counts_are_tied()
    ensures { CountsAreTied }
{
    all_is_posted();
    work_finds_room();
    work_stops_in_time();
    stopped_work_is_over();
    works_are_kept();
}

/// So after any calls everything is here once settling and working three times left nothing and no end ended.
pub fn letters_are_here_after_settling()
    ensures { LettersAreHereAfterSettling }
{
    all_is_posted();
    work_stops_in_time();
    finished_work_delivers_all();
}

/// Where work finds room so, letters are kept: they are taken whole, once and in order; none is given exactly where its bytes are not
/// here; and after settling and working three times everything is here.
pub fn letters_are_kept_where_work_finds_room()
    ensures { LettersAreKeptWhereWorkFindsRoom }
{
    letters_are_taken_whole();
    letters_are_here_after_settling();
}

/// The theorem on letters: with 1 to 8 senders, after any calls, letters are taken whole, once and in order; none is given exactly where
/// its bytes are not here; and after settling and working three times everything is here.
pub fn letters_are_kept()
    ensures { LettersAreKept }
{
    work_finds_room();
    letters_are_kept_where_work_finds_room();
}

/// All letters of a sender that were accepted are delivered, by what a caller sees: where `settle` answers three times that nothing is left,
/// each time with `work` behind it, and then the receiver is not carried and neither end of that sender's connection is in Error, each open
/// letter that is asked for is given, and none is refused as Full. No flag and no other connection is looked at.
pub fn all_is_delivered()
    ensures { AllIsDelivered }
{
    all_is_posted();
    work_finds_room();
    work_stops_in_time();
    stopped_work_is_over();
    settling_is_named();
    events_follow();
    steps_are_named();
    flags_are_true();
}

/// A letter of two bytes from a beginning with one sender: what a caller then sees of settling and working three times, as the rules compute
/// it, are the premises of `all_is_delivered`; so the letter is delivered.
pub fn one_letter_is_delivered()
    ensures calm { OneLetterIsSeenCalm }
    ensures delivered { OneLetterIsDelivered }
{
    all_is_delivered();
}

/// No end of a connection refuses a request of its peer, whatever the network does: a Send fits its receive, and a Read names granted bytes.
/// So an end comes to Error by an expiry, when as many were counted of its first untold request as it has retries; by a wait, where waits
/// are limited and as many were counted; or where it learns of a refusal, and no step makes one.
pub fn ends_end_so()
    ensures unrefused { NoRequestIsRefused }
    ensures ends { EndsEndSo }
{}
