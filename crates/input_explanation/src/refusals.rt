// The refusals of a certificate and of an order in words.

use crate::likeness::tell_certificate_likeness;
use csv_rows::RowFields;
use order_cert::{CertFault, OrderFault};
use wording::{Count, Found, Part, Words};

/// Reports the fault of the row at a place of the certificate, which has these fields, if they could be read again.
pub fn tell_certificate(
    words: &mut Words,
    fault: CertFault,
    place: u64,
    fields: Option<&RowFields>,
) {
    words.say(fault);
    if let Some(fields) = fields {
        words.next_line();
        words.say("it has ");
        words.begin_part(Part::Recorded);
        words.say(Count(fields.len(), "field"));
        for field in [0, 1] {
            if let Some(text) = fields.get(field) {
                words.say(format_args!(", {}", Found(text)));
            }
        }
        words.end_part();
        words.say("; expected ");
        words.say_part(
            Part::Expected,
            "core,seq, two numbers from 0 to 4294967295 in their shortest form",
        );
        if place == 0 {
            tell_certificate_likeness(words, fields);
        }
    }
    words.next_line();
    words.say("the certificate: ");
    words.say_document("FORMATS.md", "The certificate");
}

/// Reports why a pair may not be at its place, or why the order may not end there. The core's next record has this number, and the pair
/// names that one, if it could be read again.
pub fn tell_order(words: &mut Words, fault: OrderFault, core: u32, named: Option<u64>) {
    match fault {
        OrderFault::NoSuchCore => words.say(format_args!("core {core} is not configured")),
        OrderFault::Missing => words.say(format_args!(
            "the certificate ends here, but the recording of core {core} has another record"
        )),
        _ => words.say(format_args!("core {core}: {fault}")),
    }
    if let Some(named) = named {
        match fault {
            OrderFault::NoSuchCore | OrderFault::Missing => {}
            _ => {
                words.say("; the row names ");
                words.say_part(Part::Recorded, format_args!("record {named}"));
            }
        }
    }
    words.next_line();
    words.say("expected ");
    words.say_part(Part::Expected, expected_of(fault));
    if let OrderFault::Skipped | OrderFault::Repeated = fault {
        words.say("; each record is named once, in its core's order");
    }
    words.next_line();
    words.say("lawful orders: ");
    words.say_document("SPECIFICATION.md", "part 15 (IsLawfulOrder)");
}

// What is expected instead of an order's fault.
fn expected_of(fault: OrderFault) -> &'static str {
    match fault {
        OrderFault::NoSuchCore => "a core of the configuration",
        OrderFault::Skipped => "the core's next record, which has a smaller number",
        OrderFault::Repeated => "the core's next record, which has a greater number",
        OrderFault::Absent => "a longer recording, or a certificate without this row",
        OrderFault::Missing => "a row for each record of each core",
    }
}
