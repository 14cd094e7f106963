//! The depths of queues.
ghost use Rattle.std.specs.Prelude.{◌≡◌};
ghost use Rattle.project_book.specs.Queues.{depth_in, with_depth};

use crate::edit::Depths;

/// How many places each kind of queue has.
#[derive(Clone, Copy, PartialEq, Eq, Debug)]
pub struct QueueDepths {
    pub low_forward: u32,
    pub low_reverse: u32,
    pub comb_forward: u32,
    pub comb_reverse: u32,
    pub module_queue: u32,
}

/// How many places a wait buffer has where nothing else is said.
pub const USUAL_WAIT: u32 = 4;

impl QueueDepths {
    /// The depths where nothing else is said: 4, and 8 in the reverse queues of combining switches.
    pub const USUAL: QueueDepths = QueueDepths {
        low_forward: 4,
        low_reverse: 4,
        comb_forward: 4,
        comb_reverse: 8,
        module_queue: 4,
    };

    /// The depth of some queues.
    pub fn depth(&self, queue: Depths) -> u32
        ensures { result ≡ depth_in self.now queue }
    {
        match queue {
            Depths::LowForward => self.low_forward,
            Depths::LowReverse => self.low_reverse,
            Depths::CombForward => self.comb_forward,
            Depths::CombReverse => self.comb_reverse,
            Depths::ModuleQueue => self.module_queue,
        }
    }

    /// The depths where these queues have this one.
    pub fn with_depth(self, queue: Depths, depth: u32) -> QueueDepths
        ensures { result ≡ with_depth self queue depth }
    {
        match queue {
            Depths::LowForward => QueueDepths {
                low_forward: depth,
                ..self
            },
            Depths::LowReverse => QueueDepths {
                low_reverse: depth,
                ..self
            },
            Depths::CombForward => QueueDepths {
                comb_forward: depth,
                ..self
            },
            Depths::CombReverse => QueueDepths {
                comb_reverse: depth,
                ..self
            },
            Depths::ModuleQueue => QueueDepths {
                module_queue: depth,
                ..self
            },
        }
    }
}
