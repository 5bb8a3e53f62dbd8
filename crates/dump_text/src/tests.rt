mod conditions;
mod dumps;
mod parts;
mod reports;

use super::*;
use acct_base::{IfaceReceipt, Label, LineReceipt, ListReceipt, Mark, Receipt, Seen, Verdict};
use std::alloc::AllocError;

const UNREAD: Seen = Seen {
    version: 0,
    value: None,
};

// A tagged packet of uid 10060, whose socket's uid may pass.
const COUNTED: Receipt = Receipt {
    front: 3,
    tag_read: Seen {
        version: 1,
        value: Some(43207370997767),
    },
    rules_read: Some(Seen {
        version: 2,
        value: Some(4),
    }),
    owner_read: Some(Seen {
        version: 3,
        value: Some(4),
    }),
    set_read: Some(UNREAD),
    phase: Some(0),
    label: Some(Label {
        uid: 10060,
        tag: 7,
        set: 0,
        iface: 2,
    }),
    verdict: Verdict::Pass,
    landed_tag: Some(Mark::Landed),
    landed_plain: Some(Mark::Full),
    landed_app: None,
};

#[test]
fn receipts_are_printed_word_by_word(rt: HostRuntime) -> Result<(), AllocError> {
    let uncounted = Receipt {
        rules_read: None,
        owner_read: None,
        set_read: None,
        phase: None,
        label: None,
        verdict: Verdict::Drop,
        landed_tag: None,
        landed_plain: None,
        ..COUNTED
    };
    let taken_out = ListReceipt {
        front: 5,
        owner_read: Some(Seen {
            version: 4,
            value: None,
        }),
        matched: false,
    };
    let passed_by = IfaceReceipt {
        matched: true,
        landed: Some(Mark::Landed),
    };
    for (receipt, line) in [
        (
            LineReceipt::Hook(COUNTED),
            "rc 9 pass 3 1:10060/7 2:4 3:4/0 0:- 0 10060 7 0 landed full -\n",
        ),
        (
            LineReceipt::Hook(uncounted),
            "rc 9 drop 3 1:10060/7 - - - - - - - - - -\n",
        ),
        (LineReceipt::List(taken_out), "lc 9 nomatch 5 4:-\n"),
        (LineReceipt::Iface(passed_by), "ic 9 match landed\n"),
    ] {
        let bytes = receipt_line(rt.alloc(), 9, &receipt)?;
        assert_eq!(rt; bytes.as_slice(), line.as_bytes());
    }
    Ok(())
}
