//! What a component is handed in a step, still where it stands in the states near it.
ghost use Rattle.std.specs.Prelude.{◌≡◌, IsTrue};
ghost use Rattle.machine_cells.specs.Pulls.{traffic, module_traffic};
ghost use Rattle.machine_cells.specs.Quiet.{quiet, quiet_module};

use mem_module::ModuleTraffic;
use omega_net::{Reply, Request, Traffic};

/// What a switch is handed: what arrives, by port, and which heads leave, by port.
#[derive(Clone, Copy)]
pub(crate) struct SwitchPulls<'a> {
    pub requests: (Option<&'a Request>, Option<&'a Request>),
    pub replies: (Option<&'a Reply>, Option<&'a Reply>),
    pub requests_leave: (bool, bool),
    pub replies_leave: (bool, bool),
}

impl SwitchPulls<'_> {
    /// Whether nothing comes and nothing leaves.
    pub fn is_quiet(&self) -> bool
        ensures { IsTrue result → traffic self.now ≡ quiet }
    {
        match self {
            SwitchPulls {
                requests: (None, None),
                replies: (None, None),
                requests_leave: (false, false),
                replies_leave: (false, false),
            } => true,
            _ => false,
        }
    }

    /// The messages themselves.
    pub fn traffic(&self) -> Traffic
        ensures { result ≡ traffic self.now }
    {
        Traffic {
            requests: [self.requests.0.copied(), self.requests.1.copied()],
            replies: [self.replies.0.copied(), self.replies.1.copied()],
            requests_leave: [self.requests_leave.0, self.requests_leave.1],
            replies_leave: [self.replies_leave.0, self.replies_leave.1],
        }
    }
}

/// What a module is handed, by network, the low one first: the requests that arrive, and whether the head of its replies leaves.
#[derive(Clone, Copy)]
pub(crate) struct ModulePulls<'a> {
    pub requests: (Option<&'a Request>, Option<&'a Request>),
    pub replies_leave: (bool, bool),
}

impl ModulePulls<'_> {
    /// Whether nothing comes and nothing leaves.
    pub fn is_quiet(&self) -> bool
        ensures { IsTrue result → module_traffic self.now ≡ quiet_module }
    {
        match self {
            ModulePulls {
                requests: (None, None),
                replies_leave: (false, false),
            } => true,
            _ => false,
        }
    }

    /// The messages themselves.
    pub fn traffic(&self) -> ModuleTraffic
        ensures { result ≡ module_traffic self.now }
    {
        ModuleTraffic {
            requests: [self.requests.0.copied(), self.requests.1.copied()],
            replies_leave: [self.replies_leave.0, self.replies_leave.1],
        }
    }
}
