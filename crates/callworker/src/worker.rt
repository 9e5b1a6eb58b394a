//! How a worker answers its calls.
//!
//! `Worker::work` answers one call after another, and hands each back, with its ends, as soon as it
//! is over.

ghost use Rattle.std.specs.Prelude.{
  ◌≡◌,
  ◌≢◌,
  ◌<◌,
  [],
  ◌∷◌,
  ◌++◌,
  false,
  length,
  IfSome,
  None,
  Some,
};
ghost use Rattle.lane.specs.End.{of_end};
ghost use Rattle.lane.specs.RingEnds.{consumer_name, producer_name};
ghost use Rattle.lane.specs.RingLane.{got, in_name, out_name, put_in, put_shut, shut_name};
ghost use Rattle.rtrb.specs.Ring.{received, sent};
ghost use Rattle.handlers.specs.Listed.{listed};
ghost use Rattle.callrun.specs.declared.call.Turn.TheVariants as turn;
ghost use Rattle.callrun.specs.Sides.{is_open};
ghost use Rattle.callparts.specs.Workers.{
  Answers,
  AnswersAt,
  IsFreshWork,
  IsGivenAs,
  IsKnown,
  answers_by,
};
ghost use Rattle.callworker.specs.declared.worker.AfterTurn.TheVariants as after;
ghost use Rattle.callworker.specs.Leaving.{MayBeLeft, word_in};
ghost use Rattle.callworker.specs.Runs.{EndsAs, GoesOn, IsOneCall, giver_name};
ghost use Rattle.callworker.specs.Works.{HasHandedBack, IsUnused};

use crate::gate::Gate;
use crate::jobs::next_job;
use crate::pace::{Pace, STEP, limit};
use crate::shared_conn::SharedConn;
use crate::ways::Ways;
use callbox::{GivenShut, Giver, Taker};
use callparts::{
    Answering, DoneIn, FinishedJob, InLane, Job, Line, Naming, OutLane, Request, Traffic, Work,
};
use callrun::{CallRun, Turn};
use connbook::{CallKey, NotLive};
use handlers::{Method, Methods};
use lane::End;
use rtrb::PushError;
use std::alloc::Global;
use std::sync::ledger::Ledger;
use std::sync::{Arc, Wait};
use std::time::{Clock, Duration, Instant};

/// What a worker has, beside the methods.
#[derive(Drop)]
pub struct Worker<A: Ledger, B: Ledger, C: Ledger, G: Drop> {
    pub alloc: Global,
    /// The line that wakes it.
    pub line: Arc<Line>,
    pub shared: Arc<SharedConn<A, B, C>>,
    pub gate: Arc<G>,
    /// When the connection began; nothing where the clock didn't tell.
    pub start: Option<Instant>,
}

/// What a turn of a call came to.
#[derive(Drop)]
enum AfterTurn {
    /// The call goes on.
    GoesOn,
    /// It is over.
    Over,
    /// It was left, since the book said that it is no longer live.
    NotLive(NotLive),
}

/// What is left of a call that was answered.
#[derive(Drop)]
struct AnsweredCall {
    taker: Taker<InLane>,
    given: GivenShut<OutLane>,
    status: Option<u32>,
    traffic: Traffic,
}

impl<A: Ledger, B: Ledger, C: Ledger, G: Gate + Drop> Worker<A, B, C, G> {
    /// Answers one call after another, until no more come. It hands back each call that it took, in
    /// order.
    pub fn work<J, M, R>(&self, rt: &R, methods: &Methods, ways: Ways<J, M>) -> Ways<J, M>
    where
        J: Naming,
        M: Answering,
        R: Wait + Clock,
        requires known { IsKnown M.known (λ m. answers (m.vtable, m.value)) (listed methods.now) }
        requires unused { IsUnused (received ways.tasks) (sent ways.done) }
        ensures tasks { consumer_name result.tasks ≡ consumer_name ways.tasks }
        ensures done { producer_name result.done ≡ producer_name ways.done }
        ensures handed_back { HasHandedBack (λ job. job.number.value)
            (λ finished. finished.number.value) (received result.tasks) (sent result.done) }
    {
        let mut ways = ways;
        'calls: for _ in rt.forever() {
            let Some(job) = next_job(rt, &self.line, &mut ways.tasks) else {
                return ways;
            };
            let finished = self.answer::<J, M, R>(rt, methods, job);
            self.hand_back(rt, &mut ways.done, finished);
        }
        unreachable!()
    }

    /// Hands a call back. There is room for it, since the call before was taken before this one
    /// came. Only then it rings the other threads, so that this worker is free by the time that the
    /// peer sees the end of the call.
    fn hand_back<J: Naming, M: Answering>(
        &self,
        rt: &impl Wait,
        done: &mut DoneIn<J, M>,
        finished: FinishedJob<J>,
    )
        requires answers { AnswersAt M.known finished.number.seen.log finished.number.value
            (got finished.taker.rx) finished.taker.progress (put_shut finished.given.shut)
            finished.status }
        ensures name { producer_name done.new ≡ producer_name done.old }
        ensures sent { sent done.new ≡ sent done.old ++ finished ∷ [] }
    {
        let mut finished = finished;
        'looks: for _ in rt.forever() {
            let mark = self.line.bell.mark();
            match done.push(finished) {
                Ok(()) => {
                    self.shared.writer.ring();
                    self.shared.reader.ring();
                    return;
                }
                Err(PushError::Full(back)) => finished = back,
            }
            self.line
                .bell
                .wait_past(rt, mark, Duration::from_millis(STEP));
        }
        unreachable!()
    }

    /// Answers a call.
    fn answer<J, M, R>(&self, rt: &R, methods: &Methods, job: Job<J>) -> FinishedJob<J>
    where
        J: Naming,
        M: Answering,
        R: Wait + Clock,
        requires known { IsKnown M.known (λ m. answers (m.vtable, m.value)) (listed methods.now) }
        requires fresh { IsFreshWork job.work }
        ensures number { result.number ≡ job.number }
        ensures answers { AnswersAt M.known result.number.seen.log result.number.value
            (got result.taker.rx) result.taker.progress (put_shut result.given.shut)
            result.status }
    {
        let Job { work, number } = job;
        let AnsweredCall {
            taker,
            given,
            status,
            traffic,
        } = self.serve(rt, methods, work);
        FinishedJob {
            number,
            taker,
            given,
            status,
            traffic,
        }
    }

    /// Answers a call, without its number.
    fn serve<R: Wait + Clock>(&self, rt: &R, methods: &Methods, work: Work) -> AnsweredCall
        requires fresh { IsFreshWork work }
        ensures in_name { out_name result.taker.rx ≡ out_name work.taker.rx }
        ensures name { shut_name result.given.shut ≡ in_name work.giver.tx }
        ensures answers { Answers
            (answers_by (λ m. answers (m.vtable, m.value)) (listed methods.now))
            work.request (got result.taker.rx) result.taker.progress
            (put_shut result.given.shut) result.status }
    {
        let Work {
            request,
            taker,
            giver,
            key,
        } = work;
        let Request {
            index,
            head,
            opened,
            ..
        } = request;
        if methods.get(index).is_none() {
            return self.pass_over(rt, &key, taker, giver);
        }
        let mut run = CallRun::new(self.alloc, methods, index, head, taker, giver, opened);
        let mut pace = Pace::new();
        let not_live = self.run(rt, methods, &key, &mut run, &mut pace);
        self.end(rt, &key, run, pace, not_live)
    }

    /// Leaves a call from which nothing was taken.
    fn pass_over(
        &self,
        rt: &impl Wait,
        key: &CallKey,
        taker: Taker<InLane>,
        giver: Giver<OutLane>,
    ) -> AnsweredCall
        ensures taker { result.taker ≡ taker }
        ensures name { shut_name result.given.shut ≡ in_name giver.tx }
        ensures given { IsGivenAs (put_in giver.tx) (put_shut result.given.shut) }
        ensures status { result.status ≡ None }
    {
        let given = giver.leave();
        self.settle(rt, key, 0, false);
        AnsweredCall {
            taker,
            given,
            status: None,
            traffic: Traffic::none(),
        }
    }

    /// Gives the call turns until its end. Where it was left because it was no longer live, answers
    /// the book's word for that.
    fn run<R: Wait + Clock>(
        &self,
        rt: &R,
        methods: &Methods,
        key: &CallKey,
        run: &mut CallRun<InLane, OutLane>,
        pace: &mut Pace,
    ) -> Option<NotLive>
        requires index { run.old.index < length (listed methods.now) }
        ensures goes_on { GoesOn (λ m. answers (m.vtable, m.value))
            (λ m. stands (m.vtable, m.value))
            (listed methods.now) run.old run.new }
        ensures same { IsOneCall run.old run.new }
        ensures over { is_open run.new.response ≡ false }
        ensures left { MayBeLeft run.old None → MayBeLeft run.new result }
    {
        'turns: for _ in rt.forever() {
            self.pass_gate(rt, key, pace);
            match self.step(rt, methods, key, run, pace) {
                AfterTurn::GoesOn => {}
                AfterTurn::Over => return None,
                AfterTurn::NotLive(word) => return Some(word),
            }
        }
        unreachable!()
    }

    /// Waits until the gate lets the call go on, or the call is no longer live.
    fn pass_gate(&self, rt: &impl Wait, key: &CallKey, pace: &mut Pace) {
        'refusals: for _ in 0..pace.refusals() {
            let mark = self.line.bell.mark();
            if self.gate.may_go(key.id()) {
                return;
            }
            pace.refused();
            self.line
                .bell
                .wait_past(rt, mark, Duration::from_millis(STEP));
            if self.shared.book.lock(rt).not_live(key).is_some() {
                return;
            }
        }
    }

    /// Gives the call a turn, and waits where there was nothing to do. A call that is no longer
    /// live ends.
    fn step<R: Wait + Clock>(
        &self,
        rt: &R,
        methods: &Methods,
        key: &CallKey,
        run: &mut CallRun<InLane, OutLane>,
        pace: &mut Pace,
    ) -> AfterTurn
        requires index { run.old.index < length (listed methods.now) }
        ensures goes_on { GoesOn (λ m. answers (m.vtable, m.value))
            (λ m. stands (m.vtable, m.value))
            (listed methods.now) run.old run.new }
        ensures same { IsOneCall run.old run.new }
        ensures over { result ≢ after.GoesOn → is_open run.new.response ≡ false }
        ensures left { MayBeLeft run.old None → MayBeLeft run.new (word_in result) }
    {
        let came = self.line.bell.mark();
        let now = self.now(rt, run);
        let turn = self.look(methods, run, now);
        match turn {
            Turn::Went => {
                if pace.went() {
                    self.shared.writer.ring();
                }
                AfterTurn::GoesOn
            }
            Turn::Over => AfterTurn::Over,
            Turn::Nothing | Turn::Full => {
                if let Some(word) = self.look_if_live(rt, key, run, pace) {
                    self.give_up(rt, methods, run);
                    return AfterTurn::NotLive(word);
                }
                let most = limit(run.time_left(now));
                self.line.bell.wait_past(rt, came, most);
                pace.waited(turn);
                AfterTurn::GoesOn
            }
        }
    }

    /// Gives the call a turn. One that finds no room is repeated, once the worker has asked to be
    /// rung for room.
    fn look(&self, methods: &Methods, run: &mut CallRun<InLane, OutLane>, now: u64) -> Turn
        requires index { run.old.index < length (listed methods.now) }
        ensures goes_on { GoesOn (λ m. answers (m.vtable, m.value))
            (λ m. stands (m.vtable, m.value))
            (listed methods.now) run.old run.new }
        ensures same { IsOneCall run.old run.new }
        ensures over { result ≡ turn.Over → is_open run.new.response ≡ false }
        ensures left { MayBeLeft run.old None → MayBeLeft run.new None }
    {
        let turn = run.turn(methods, now);
        if turn != Turn::Full {
            return turn;
        }
        self.line.want_room();
        run.turn(methods, now)
    }

    /// Returns the bytes that were taken. Where the call is no longer live, answers the book's word
    /// for that. It rings the writer if bytes were returned, or if something was given since the
    /// last ring.
    fn look_if_live(
        &self,
        rt: &impl Wait,
        key: &CallKey,
        run: &mut CallRun<InLane, OutLane>,
        pace: &mut Pace,
    ) -> Option<NotLive>
        ensures whose { IfSome result (λ word. word.id ≡ key.now.id) }
        ensures none { run.new.taker.progress ≡ record run.old.taker.progress { owed = 0 } }
        ensures rx { run.new.taker.rx ≡ run.old.taker.rx }
        ensures same { (run.new.index ≡ run.old.index) × (run.new.call ≡ run.old.call)
            × (run.new.in_hand ≡ run.old.in_hand) × (run.new.response ≡ run.old.response) }
    {
        let credit = run.credit();
        pace.came(credit);
        let not_live = {
            let mut book = self.shared.book.lock(rt);
            if credit > 0 {
                // The bytes of a call that is no longer live were returned already.
                let _ = book.return_credit(key, credit);
            }
            book.not_live(key)
        };
        // Only now, so that the writer sees the bytes that were returned.
        if credit > 0 || !pace.is_told() {
            self.shared.writer.ring();
        }
        not_live
    }

    /// Gives a call that is no longer live turns as long as they do something, and then leaves it.
    /// So a call that was reset ends by that.
    fn give_up<R: Wait + Clock>(
        &self,
        rt: &R,
        methods: &Methods,
        run: &mut CallRun<InLane, OutLane>,
    )
        requires index { run.old.index < length (listed methods.now) }
        ensures goes_on { GoesOn (λ m. answers (m.vtable, m.value))
            (λ m. stands (m.vtable, m.value))
            (listed methods.now) run.old run.new }
        ensures same { IsOneCall run.old run.new }
        ensures over { is_open run.new.response ≡ false }
    {
        'turns: for _ in rt.forever() {
            let now = self.now(rt, run);
            match run.turn(methods, now) {
                Turn::Went => {}
                Turn::Over => return,
                Turn::Nothing | Turn::Full => {
                    run.leave(methods);
                    return;
                }
            }
        }
    }

    /// Ends a call that is over, by its last item, and hands back its ends. It was left only for
    /// want of memory, or with the book's word that it was no longer live.
    fn end(
        &self,
        rt: &impl Wait,
        key: &CallKey,
        run: CallRun<InLane, OutLane>,
        pace: Pace,
        _not_live: Option<NotLive>,
    ) -> AnsweredCall
        requires left { MayBeLeft run _not_live }
        ensures rx { result.taker.rx ≡ run.taker.rx }
        ensures progress { result.taker.progress ≡ record run.taker.progress { owed = 0 } }
        ensures name { Some (shut_name result.given.shut) ≡ giver_name run.response }
        ensures given { EndsAs run (put_shut result.given.shut) result.status }
    {
        let mut run = run;
        let mut pace = pace;
        let credit = run.credit();
        pace.came(credit);
        let (replies, reply_bytes) = run.given();
        let (taker, end, status) = run.into_ends();
        let given = shut_of(end);
        self.settle(rt, key, credit, status.is_some());
        AnsweredCall {
            taker,
            given,
            status,
            traffic: Traffic {
                bytes: pace.bytes(),
                replies,
                reply_bytes,
            },
        }
    }

    /// Returns the bytes that were taken of a call that is over, whose last item was given before.
    /// A call without trailers is left.
    fn settle(&self, rt: &impl Wait, key: &CallKey, credit: u32, has_trailers: bool) {
        let mut book = self.shared.book.lock(rt);
        if credit > 0 {
            let _ = book.return_credit(key, credit);
        }
        if !has_trailers {
            book.leave(key);
        }
    }

    /// The moment, in nanoseconds of the connection. No clock is read for a call without a
    /// deadline.
    fn now(&self, rt: &impl Clock, run: &CallRun<InLane, OutLane>) -> u64 {
        if run.has_deadline() {
            return moment(rt, self.start);
        }
        0
    }
}

/// How many nanoseconds there were since the start; the greatest number where the clock doesn't
/// tell, or didn't tell the start. So without a start no deadline of a call comes, but that of a
/// timeout of 0.
pub fn moment(rt: &impl Clock, start: Option<Instant>) -> u64 {
    let Some(start) = start else {
        return u64::MAX;
    };
    match start.elapsed(rt) {
        Ok(past) => u64::try_from(past.as_nanos()).unwrap_or(u64::MAX),
        Err(_) => u64::MAX,
    }
}

/// The giving end of a call, which is left if it wasn't answered.
fn shut_of(end: End<Giver<OutLane>, GivenShut<OutLane>>) -> GivenShut<OutLane>
    ensures name { shut_name result.shut ≡ of_end (λ g. in_name g.tx) (λ s. shut_name s.shut) end }
    ensures given { IsGivenAs (of_end (λ g. put_in g.tx) (λ s. put_shut s.shut) end)
        (put_shut result.shut) }
{
    match end {
        End::Open(giver) => giver.leave(),
        End::Shut(shut) => shut,
    }
}
