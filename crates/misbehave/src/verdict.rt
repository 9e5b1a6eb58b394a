//! Whether what a client did is right.

ghost use Rattle.std.specs.Prelude.{◌≡◌, ◌<◌, ◌⊎◌, None, true, false, IsSome};
ghost use Rattle.misbehave.specs.Judgements.{HasToEnd, IsAccused, IsFree};
ghost use Rattle.misbehave.specs.declared.misbehaviour.Need.TheVariants as needs;
ghost use Rattle.misbehave.specs.declared.verdict.Judgement.TheVariants as judgement;

use crate::breach::Breach;
use crate::deeds::{Deeds, Ending};
use crate::lack::{
    ClientLack, LEFT_EARLY, LEFT_UNCLEAR, LEFT_UNREAD, NO_CALL, NO_CALL_ELSEWHERE, NO_SIGN,
    ONE_AT_A_TIME, Shortfall, TIME_OVER,
};
use crate::misbehaviour::{Duty, Misbehaviour, Need};
use crate::rule::Rule;
use crate::sentences::Sentence;
use results::Verdict;

/// What a client did wrong.
#[derive(Clone, Copy)]
pub enum Fault {
    /// What no client may do, whatever the server does.
    Breach(Breach),
    /// It gave the call up by an error.
    GaveUp(Ending, Sentence),
    /// It did nothing of the call, though it could.
    Stalled(Sentence),
    /// It went on where it had to end the stream.
    KeptStream(Sentence),
    /// It went on where it had to end the connection.
    KeptConnection(Sentence),
}

impl Fault {
    /// The sentence that forbids it.
    pub fn rule(&self) -> Rule {
        match self {
            Fault::Breach(breach) => breach.rule,
            Fault::GaveUp(_, sentence)
            | Fault::Stalled(sentence)
            | Fault::KeptStream(sentence)
            | Fault::KeptConnection(sentence) => sentence.rule(),
        }
    }
}

/// What is to be said of a client.
#[derive(Clone, Copy)]
pub enum Judgement {
    Right,
    Wrong(Fault),
    Untested(ClientLack),
}

impl Judgement {
    pub fn verdict(&self) -> Verdict {
        match self {
            Judgement::Right => Verdict::Ok,
            Judgement::Wrong(_) => Verdict::Failed,
            Judgement::Untested(_) => Verdict::NotTested,
        }
    }
}

/// What is to be said of a client's deeds.
pub fn judge(play: &Misbehaviour, deeds: &Deeds) -> Judgement
    // Who did right broke no rule, was shown the misbehaviour, and did what the case needs.
    ensures lawful { result ≡ judgement.Right → deeds.now.breach ≡ None }
    ensures shown { result ≡ judgement.Right → deeds.now.is_shown ≡ true }
    // Ending the connection is a reaction where it comes in place of an answer of the PING after
    // it.
    ensures ended { result ≡ judgement.Right → HasToEnd play.now.duty
        → IsSome deeds.now.reset ⊎ (IsSome deeds.now.goaway
        ⊎ ((deeds.now.has_left ≡ true) × (deeds.now.has_read ≡ false))) }
    ensures elsewhere { result ≡ judgement.Right → play.now.need ≡ needs.CallElsewhere
        → 0 < deeds.now.calls_elsewhere }
    ensures at_once { result ≡ judgement.Right → play.now.need ≡ needs.CallsAtOnce
        → deeds.now.has_overlap ≡ true }

    // A client that broke no rule which binds each client is reported as wrong only if it has a
    // further duty.
    ensures free { IsAccused result → IsFree play.now.duty
        → IsSome deeds.now.breach ⊎ IsSome deeds.now.overdue }
    ensures kept { IsAccused result → HasToEnd play.now.duty → deeds.now.breach ≡ None
        → deeds.now.overdue ≡ None → deeds.now.has_gone_on ≡ true }
{
    if let Some(breach) = deeds.breach {
        return Judgement::Wrong(Fault::Breach(breach));
    }
    if let Some(lack) = deeds.lack {
        return Judgement::Untested(lack);
    }
    if let Some(breach) = overdue(play.duty, deeds) {
        return Judgement::Wrong(Fault::Breach(breach));
    }
    if !deeds.is_shown {
        return Judgement::Untested(unshown(deeds));
    }
    match judge_duty(play.duty, deeds) {
        Judgement::Right => judge_need(play.need, deeds),
        other => other,
    }
}

/// What a client still owes after a long time. One that has to end the connection need not read on
/// there.
fn overdue(duty: Duty, deeds: &Deeds) -> Option<Breach>
    ensures { IsSome result → IsSome deeds.now.overdue }
{
    match duty {
        Duty::EndsConnection(_, _) => None,
        _ => deeds.overdue,
    }
}

/// Why a client wasn't shown what the server does wrong.
fn unshown(deeds: &Deeds) -> ClientLack {
    if deeds.calls == 0 {
        return ClientLack::Seen(NO_CALL);
    }
    if let Some(reset) = deeds.reset {
        return ClientLack::GaveUp(reset);
    }
    if deeds.has_left && !deeds.is_over {
        return ClientLack::Seen(LEFT_EARLY);
    }
    ClientLack::Awaited(deeds.awaited)
}

/// Whether a client that was shown the misbehaviour did its duty.
fn judge_duty(duty: Duty, deeds: &Deeds) -> Judgement
    ensures ended { result ≡ judgement.Right → HasToEnd duty
        → IsSome deeds.now.reset ⊎ (IsSome deeds.now.goaway
        ⊎ ((deeds.now.has_left ≡ true) × (deeds.now.has_read ≡ false))) }
    ensures free { IsAccused result → ¬ IsFree duty }
    ensures kept { IsAccused result → HasToEnd duty → deeds.now.has_gone_on ≡ true }
{
    match duty {
        Duty::Free => Judgement::Right,
        Duty::Completes(sentence) => completes(Some(sentence), Some(sentence), deeds),
        Duty::Proceeds(sentence) => completes(None, Some(sentence), deeds),
        Duty::Tries => completes(None, None, deeds),
        Duty::EndsStream(_, sentence) => ends_stream(sentence, deeds),
        Duty::EndsConnection(_, sentence) => ends(Fault::KeptConnection(sentence), deeds),
    }
}

/// Whether a client let the call go on to its end. Sentences may forbid to give it up, and to leave
/// it undone.
fn completes(
    giving_up: Option<Sentence>,
    leaving_undone: Option<Sentence>,
    deeds: &Deeds,
) -> Judgement
    ensures free { IsAccused result → IsSome giving_up ⊎ IsSome leaving_undone }
{
    if let Some(reset) = deeds.reset {
        if reset.is_early && reset.is_own_reason() {
            return Judgement::Untested(ClientLack::GaveUp(reset));
        }
        if reset.is_early {
            return gives_up(giving_up, reset);
        }
    }
    if let Some(goaway) = deeds.goaway {
        if goaway.is_early && !goaway.is_own_reason() {
            return gives_up(giving_up, goaway);
        }
    }
    if deeds.is_over {
        return Judgement::Right;
    }
    if deeds.has_left {
        return Judgement::Untested(ClientLack::Seen(LEFT_EARLY));
    }
    match leaving_undone {
        Some(sentence) if deeds.is_stalled => Judgement::Wrong(Fault::Stalled(sentence)),
        _ => Judgement::Untested(ClientLack::Awaited(deeds.awaited)),
    }
}

/// What is to be said of a client that gave the call up by an error.
fn gives_up(forbidden: Option<Sentence>, ending: Ending) -> Judgement
    ensures { IsAccused result → IsSome forbidden }
{
    match forbidden {
        Some(sentence) => Judgement::Wrong(Fault::GaveUp(ending, sentence)),
        None => Judgement::Untested(ClientLack::Declined(ending)),
    }
}

/// Whether a client ended the stream, or the connection.
fn ends_stream(sentence: Sentence, deeds: &Deeds) -> Judgement
    ensures ended { result ≡ judgement.Right
        → IsSome deeds.now.reset ⊎ (IsSome deeds.now.goaway
        ⊎ ((deeds.now.has_left ≡ true) × (deeds.now.has_read ≡ false))) }
    ensures kept { IsAccused result → deeds.now.has_gone_on ≡ true }
{
    if let Some(reset) = deeds.reset {
        if reset.is_answer() {
            return Judgement::Right;
        }
        if !reset.is_late {
            return Judgement::Untested(ClientLack::GaveUp(reset));
        }
    }
    ends(Fault::KeptStream(sentence), deeds)
}

/// Whether a client ended the connection. The fault is what it did wrong where it went on. Once it
/// has read what was wrong, and goes on, that it ends the connection says nothing: it may have what
/// it wanted.
fn ends(fault: Fault, deeds: &Deeds) -> Judgement
    ensures ended { result ≡ judgement.Right → IsSome deeds.now.goaway
        ⊎ ((deeds.now.has_left ≡ true) × (deeds.now.has_read ≡ false)) }
    ensures kept { IsAccused result → deeds.now.has_gone_on ≡ true }
{
    if let Some(goaway) = deeds.goaway {
        if goaway.is_answer() {
            return Judgement::Right;
        }
        if !goaway.is_late {
            return Judgement::Untested(ClientLack::GaveUp(goaway));
        }
    }
    if deeds.has_gone_on {
        return Judgement::Wrong(fault);
    }
    if !deeds.has_left {
        return Judgement::Untested(ClientLack::Seen(TIME_OVER));
    }
    if deeds.has_read {
        return Judgement::Untested(ClientLack::Seen(LEFT_UNCLEAR));
    }
    Judgement::Right
}

/// Whether a client did what has to be seen before it is reported as right.
fn judge_need(need: Need, deeds: &Deeds) -> Judgement
    ensures fair { ¬ IsAccused result }
    ensures elsewhere { result ≡ judgement.Right → need ≡ needs.CallElsewhere
        → 0 < deeds.now.calls_elsewhere }
    ensures at_once { result ≡ judgement.Right → need ≡ needs.CallsAtOnce
        → deeds.now.has_overlap ≡ true }
{
    let (seen, shortfall) = match need {
        Need::Nothing => (true, TIME_OVER),
        Need::Reading => (has_read(deeds), unread(deeds)),
        Need::CallElsewhere => (deeds.calls_elsewhere > 0, NO_CALL_ELSEWHERE),
        Need::CallsAtOnce => (deeds.has_overlap, ONE_AT_A_TIME),
        Need::Sign => (has_noticed(deeds), NO_SIGN),
    };
    if seen {
        Judgement::Right
    } else {
        Judgement::Untested(ClientLack::Seen(shortfall))
    }
}

/// Whether a client read what the server did, or ended the call or the connection by an error.
fn has_read(deeds: &Deeds) -> bool {
    deeds.has_read || deeds.reset.is_some() || deeds.goaway.is_some()
}

fn unread(deeds: &Deeds) -> Shortfall {
    if deeds.has_left {
        LEFT_UNREAD
    } else {
        TIME_OVER
    }
}

/// Whether a client noticed the end of the connection.
fn has_noticed(deeds: &Deeds) -> bool {
    deeds.has_left || deeds.reset.is_some() || deeds.goaway.is_some() || deeds.calls_elsewhere > 0
}
