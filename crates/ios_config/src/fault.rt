ghost use Rattle.std.specs.Prelude.{◌≡◌};
ghost use Rattle.ios_config.specs.Taking as specs;

use ios_acl::AclFault;
use ios_lex::{IosReason, LineFault};
use ios_nat::NatFault;
use ios_route::RouteFault;
use std::alloc::AllocError;

/// Why a configuration is not read.
#[derive(Debug, Drop)]
pub enum ConfigFault {
    /// The first line that is refused, from 1.
    At { line: u64, reason: IosReason },
    NoMemory,
}

impl From<AllocError> for ConfigFault {
    ghost use Rattle.ios_config.specs.declared.fault.ConfigFault.TheVariants.{NoMemory};

    ghost from_gives = { λ _ fault. fault ≡ NoMemory };

    fn from(_: AllocError) -> ConfigFault {
        ConfigFault::NoMemory
    }
}

/// The fault of the line of this number.
pub(crate) fn located(line: u64, fault: LineFault) -> ConfigFault
    ensures { result ≡ specs.located line fault }
{
    match fault {
        LineFault::Refused(reason) => ConfigFault::At { line, reason },
        LineFault::NoMemory => ConfigFault::NoMemory,
    }
}

/// The fault of a line of an access list.
pub(crate) fn of_list(fault: AclFault) -> LineFault
    ensures { result ≡ specs.of_list fault }
{
    match fault {
        AclFault::Refused(reason) => LineFault::Refused(reason),
        AclFault::NoMemory => LineFault::NoMemory,
    }
}

/// The fault of a line on address translation.
pub(crate) fn of_translation(fault: NatFault) -> LineFault
    ensures { result ≡ specs.of_translation fault }
{
    match fault {
        NatFault::Refused(reason) => LineFault::Refused(reason),
        NatFault::NoMemory => LineFault::NoMemory,
    }
}

/// The fault of a configuration that has this fault of a static route.
pub(crate) fn of_route(fault: RouteFault) -> ConfigFault
    ensures { result ≡ specs.of_route fault }
{
    match fault {
        RouteFault::NextHopNotConnected { line } => ConfigFault::At {
            line,
            reason: IosReason::NextHopNotConnected,
        },
        RouteFault::UnknownInterface { line } => ConfigFault::At {
            line,
            reason: IosReason::UnknownInterface,
        },
        RouteFault::NoMemory => ConfigFault::NoMemory,
    }
}
