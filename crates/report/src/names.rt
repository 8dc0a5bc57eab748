// The names of causes, faults and kinds of records in a report.

ghost use Rattle.std.specs.Prelude.{◌≡◌};
ghost use Rattle.record_read.specs.Named.{kind_name};
ghost use Rattle.report.specs.Text.{argument_fault_name, cause_name, cert_fault_name, config_fault_name, order_fault_name, row_fault_name};

use crate::fault::ArgumentFault;
use apex_types::Cause;
use module_config::ConfigFault;
use order_cert::{CertFault, OrderFault};
use record_read::{Kind, RowFault};

// The name of a value that is one of these variants.
macro_rules! name_of {
    ($value:expr, $kind:ident: $($variant:ident)+) => {
        match $value {
            $($kind::$variant => stringify!($variant).as_bytes(),)+
        }
    };
}

// The name of a cause.
pub fn name_of_cause(cause: Cause) -> &'static [u8]
    ensures { result.now ≡ cause_name cause }
{
    name_of!(cause, Cause:
        Names Skew Idle Window Deadline Choice Return OutsideProfile Prio Chan Out Val Data Woken)
}

// The name of a fault of the arguments.
pub fn name_of_argument_fault(fault: ArgumentFault) -> &'static [u8]
    ensures { result.now ≡ argument_fault_name fault }
{
    name_of!(fault, ArgumentFault:
        NoWorkers TooManyWorkers NoDepth TooDeep ReaderCount)
}

// The name of a fault of the configuration.
pub fn name_of_config_fault(fault: ConfigFault) -> &'static [u8]
    ensures { result.now ≡ config_fault_name fault }
{
    name_of!(fault, ConfigFault:
        NotToml Missing WrongType OutOfRange TooMany Duplicate CoreNotOfPartition Overlap ChannelEnds
        Memory)
}

// The name of a fault of the certificate.
pub fn name_of_cert_fault(fault: CertFault) -> &'static [u8]
    ensures { result.now ≡ cert_fault_name fault }
{
    name_of!(fault, CertFault: Read Memory TooMany FieldCount BadNumber Ended)
}

// The name of a fault of the order.
pub fn name_of_order_fault(fault: OrderFault) -> &'static [u8]
    ensures { result.now ≡ order_fault_name fault }
{
    name_of!(fault, OrderFault: NoSuchCore Skipped Repeated Absent Missing)
}

/// The name of a fault of a row.
pub fn name_of_row_fault(fault: RowFault) -> &'static [u8]
    ensures { result.now ≡ row_fault_name fault }
{
    name_of!(fault, RowFault:
        Read Memory TooMany FieldCount BadNumber SeqGap BadKind FieldNotForKind BadService BadName
        BadHex BadLength BadOut BadWoken BadError Ended)
}

// The name of a kind of records.
pub fn name_of_kind(kind: Kind) -> &'static [u8]
    ensures { result.now ≡ kind_name kind }
{
    match kind {
        Kind::Call => b"call",
        Kind::Ret => b"ret",
        Kind::Disp => b"disp",
        Kind::Tick => b"tick",
        Kind::Arrive => b"arrive",
        Kind::Depart => b"depart",
        Kind::Error => b"err",
    }
}
