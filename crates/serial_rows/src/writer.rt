//! The steps of the writer, as its thread takes them.

use crate::serial::Serial;
use connbook::LastAdmitted;
use h2frame::StreamId;
use limits::MAX_LIVE;
use std::sync::Wait;
use std::time::Clock;
use writerloop::{AfterWrite, FillEnd, OrderStep, WaitingOrder};

impl<'a, R: Wait + Clock> Serial<'a, R> {
    /// All steps in turn.
    pub fn round(&mut self) {
        while self.order() {}
        self.announce();
        self.fill();
        self.release();
        self.flush();
    }

    /// Takes the next order; whether there was one that could be taken.
    pub fn order(&mut self) -> bool {
        if self.is_over {
            return false;
        }
        let last = match self.writing.look() {
            WaitingOrder::Nothing => return false,
            WaitingOrder::Window => Some(self.last()),
            WaitingOrder::Goaway | WaitingOrder::Other => None,
        };
        match self.writing.take_next(last) {
            OrderStep::Nothing | OrderStep::Early => return false,
            OrderStep::One => {}
            OrderStep::Ends(ended) => {
                let mut book = self.shared.book.lock(self.rt);
                self.writing.cut(&mut book, ended);
            }
            OrderStep::Stops => self.stop(),
            OrderStep::Lost => {
                let last = self.last();
                self.writing.give_up(last);
                self.stop();
            }
        }
        self.is_idle = false;
        true
    }

    /// The greatest stream that was admitted.
    pub fn last(&self) -> LastAdmitted {
        self.shared.book.lock(self.rt).last()
    }

    /// Owes the peer what credit is due.
    pub fn announce(&mut self) {
        if self.is_over {
            return;
        }
        for place in 0..MAX_LIVE {
            let id = self.shared.book.lock(self.rt).live_id(place);
            let Some(id) = id else {
                break;
            };
            self.announce_on(id);
        }
        self.announce_on(0);
    }

    /// Grants the credit that is due on a stream, or on the connection where it is 0. It stays due
    /// if the writer hasn't opened the stream.
    fn announce_on(&mut self, id: StreamId) {
        if !self.writing.takes_credit(id) {
            return;
        }
        let mut book = self.shared.book.lock(self.rt);
        if let Some(credit) = book.take_due_credit(id, &mut self.told) {
            self.writing.grant(credit);
        }
    }

    /// Puts frames into the buffer; where there was no memory for one, the last word.
    pub fn fill(&mut self) {
        if self.is_over {
            return;
        }
        let filled = self.writing.fill();
        if filled == FillEnd::Stopped {
            let last = self.last();
            self.writing.say_last(last);
        }
        self.filled = Some((filled, self.writing.is_flushed()));
    }

    /// Lets go of the senders of calls that are through.
    pub fn release(&mut self) {
        if !self.is_over {
            let _ = self.writing.release_all();
        }
    }

    /// Writes out what is in the buffer. The sender of a call whose last frame is in it goes back
    /// before, and the call takes no more DATA.
    pub fn flush(&mut self) {
        if self.is_over {
            return;
        }
        self.release();
        let marked = {
            let mut book = self.shared.book.lock(self.rt);
            self.writing.mark_ends(&mut book)
        };
        if self.writing.flush(marked).is_err() {
            self.stop();
        }
        if let Some((filled, is_silent)) = self.filled.take() {
            self.end_turn(filled, is_silent);
        }
    }

    /// What follows that. If nothing can be written, the calls that wait for a window which won't
    /// open are cut.
    fn end_turn(&mut self, filled: FillEnd, is_silent: bool) {
        let rest = self.writing.after_write(filled, is_silent);
        self.is_idle = rest != AfterWrite::None;
        match rest {
            AfterWrite::None => {}
            AfterWrite::Idle => {
                {
                    let mut book = self.shared.book.lock(self.rt);
                    self.writing.cut_stuck(&mut book);
                }
                self.is_idle = !self.writing.reset_left();
            }
            AfterWrite::Stopped => self.stop(),
            AfterWrite::StoppedOver => {
                self.stop();
                self.is_over = true;
            }
            AfterWrite::Over => self.is_over = true,
        }
    }

    /// Nothing more is written: no call is live.
    fn stop(&mut self) {
        let mut book = self.shared.book.lock(self.rt);
        if self.writing.stop(&mut book).is_some() {
            self.shared.stop();
        }
    }
}
