//! The events of a workload, one at a time.

ghost use Rattle.std.specs.Prelude.{◌≡◌, ◌≤◌, ◌<◌, ◌∷◌, None, [], length, IfOk, OnErr, IfSome};
ghost use Rattle.outside.specs.Workload.{work_events, events_of, opening};
ghost use Rattle.outside.specs.declared.work.Stage.TheVariants.{Opening, Bringing};

use crate::event::WireEvent;
use crate::work::{Stage, Work};
use crate::work_frames::frame_of;
use std::alloc::Global;
use zbx_types::{Moment, OutOfMemory};

/// The most values of a frame.
const FRAME: u64 = 250;

impl Work {
    /// The workload of a number and so many values, of which no event was given.
    #[tactic(auto, unfolding(crate::specs::Workload::work_events))]
    pub(crate) fn new(number: u64, values: u64) -> Work
        requires { values ≤ 1000000 }
        ensures { events_of result ≡ work_events number values }
    {
        Work {
            stage: Stage::Opening,
            frames: ((values + 249) / FRAME) as u32,
            opened: 0,
            state: number,
            left: values,
        }
    }

    /// The moment at which the connection that opened last did so.
    fn moment(self) -> Moment
        ensures { result ≡ opening self.opened }
    {
        Moment {
            sec: 999_999 + self.opened,
            ns: 0,
        }
    }

    /// The next connection opens, or the wire closes.
    fn open(self) -> (WireEvent, Work)
        requires { self.stage ≡ Opening }
        ensures { events_of self ≡ result.0 ∷ events_of result.1 }
    {
        if self.frames == 0 {
            let event = WireEvent::Closed { at: self.moment() };
            let work = Work {
                stage: Stage::Ended,
                frames: 0,
                opened: self.opened,
                state: self.state,
                left: self.left,
            };
            return (event, work);
        }
        let work = Work {
            stage: Stage::Bringing,
            frames: self.frames - 1,
            opened: self.opened + 1,
            state: self.state,
            left: self.left,
        };
        let event = WireEvent::Opened {
            conn: u64::from(work.opened),
            at: work.moment(),
        };
        (event, work)
    }

    /// The connection that opened last brings its frame.
    fn bring(self, alloc: Global) -> Result<(WireEvent, Work), OutOfMemory>
        requires { self.stage ≡ Bringing }
        ensures { IfOk result (λ made. events_of self ≡ made.0 ∷ events_of made.1) }
    {
        let (bytes, state) = frame_of(alloc, self.state, self.left.min(FRAME))?;
        let event = WireEvent::Piece {
            conn: u64::from(self.opened),
            bytes,
            at: self.moment(),
        };
        let work = Work {
            stage: Stage::Opening,
            frames: self.frames,
            opened: self.opened,
            state,
            left: self.left.saturating_sub(FRAME),
        };
        Ok((event, work))
    }

    /// The next event and what is left behind it, or None where nothing is left.
    pub(crate) fn next(self, alloc: Global) -> Result<Option<(WireEvent, Work)>, OutOfMemory>
        ensures some { IfOk result (λ made. IfSome made (λ next. events_of self ≡ next.0 ∷ events_of next.1)) }
        ensures none { IfOk result (λ made. made ≡ None → events_of self ≡ []) }
        ensures err { OnErr result (0 < length (events_of self)) }
    {
        match self.stage {
            Stage::Opening => Ok(Some(self.open())),
            Stage::Bringing => Ok(Some(self.bring(alloc)?)),
            Stage::Ended => Ok(None),
        }
    }
}
