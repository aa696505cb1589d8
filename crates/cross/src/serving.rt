//! Giving out the shares that execute at a level, along a queue.

ghost use Rattle.std.specs.Prelude.{◌≡◌, ◌<◌, length};
ghost use Rattle.std.specs.List.{All};
ghost use Rattle.cross.specs.Levels.{asks_at};
ghost use Rattle.cross.specs.Queues.{given_out};

use crate::allotment::Allotment;
use crate::level::Level;
use crate::queue::Queued;

impl Level {
    /// Gives out shares along a queue, to each order what it asks for while they last, and writes its record.
    pub(crate) fn give_out(self, queue: &[Queued], list: &mut [Allotment])
        requires { All (λ q. q.slot < length list.old) queue.now }
        ensures { list.new ≡ given_out (asks_at self) queue.now self.executed list.old }
    {
        let mut left = self.executed;
        for queued in queue {
            let fill = self.asked(queued.order).min(left);
            list[queued.slot] = Allotment {
                place: queued.place,
                fill,
            };
            left -= fill;
        }
    }
}
