//! Reports with their dumps, line by line.

use super::parts::{DeletionParts, Parts, PhaseParts, SectionParts};
use acct_base::{IfaceReceipt, Key, Label, LineReceipt, Mark, Receipt, Seen, Verdict, Write};
use desk_core::Reply;

/// A report, and the lines of its dump: those before the receipts, the receipts, and those behind them.
#[derive(Clone, Copy)]
pub struct Case {
    pub parts: Parts,
    pub before: &'static str,
    pub receipts: &'static str,
    pub behind: &'static str,
}

const UNREAD: Seen = Seen {
    version: 0,
    value: None,
};

const LABEL: Label = Label {
    uid: 10050,
    tag: 0,
    set: 0,
    iface: 2,
};

const LANDED: Option<Mark> = Some(Mark::Landed);

// An untagged packet of a uid that nothing was written of.
const PASSED: Receipt = Receipt {
    front: 0,
    tag_read: UNREAD,
    rules_read: Some(UNREAD),
    owner_read: Some(UNREAD),
    set_read: Some(UNREAD),
    phase: Some(0),
    label: Some(LABEL),
    verdict: Verdict::Pass,
    landed_tag: None,
    landed_plain: LANDED,
    landed_app: LANDED,
};

// Uid 10060 and tag 7, as a register's word.
const OTHERS_TAG: u64 = 43207370997767;

// Uid 10050 and tag 7, as a register's word.
const OWN_TAG: u64 = 43164421324807;

/// The match is by the socket's uid, and the charge by that of the tag.
pub const CHARGED_TO_ANOTHER: Case = Case {
    parts: Parts {
        names: &[],
        sections: &[
            SectionParts {
                lanes: &[],
                replies: &[(4, Reply::Done), (5, Reply::Done), (6, Reply::Done)],
            },
            SectionParts {
                lanes: &[&[
                    (9, LineReceipt::Hook(TAGGED_BY_ANOTHER)),
                    (10, LineReceipt::Hook(DROPPED)),
                ]],
                replies: &[],
            },
        ],
        journal: &[
            Write {
                key: Key::Cookie(77),
                value: Some(OTHERS_TAG),
            },
            Write {
                key: Key::Enabled,
                value: Some(4),
            },
            Write {
                key: Key::Owner(10050),
                value: Some(4),
            },
        ],
        phases: &[],
        live: &[
            ((10060, 0, 0, 2), (2, 200, 0, 0)),
            ((10060, 7, 0, 2), (1, 100, 0, 0)),
        ],
        apps: &[(10060, (2, 200, 0, 0))],
        ifaces: &[],
    },
    before: "netacct-dump 1\n\
             calls 2 pass 1 drop 1 full 0\n\
             writes 3 phase 0\n\
             replies\n\
             reply 4 done\n\
             reply 5 done\n\
             reply 6 done\n",
    receipts: "receipts\n\
               rc 9 pass 3 1:10060/7 2:4 3:4/0 0:- 0 10060 7 0 landed landed landed\n\
               rc 10 drop 3 0:- 2:4 0:- 0:- 0 10060 0 0 - landed landed\n",
    behind: "live 0\n\
             row 10060 0 0 2 2 200 0 0\n\
             row 10060 7 0 2 1 100 0 0\n\
             total\n\
             row 10060 0 0 2 2 200 0 0\n\
             row 10060 7 0 2 1 100 0 0\n\
             apps\n\
             app 10060 2 200 0 0\n\
             ifaces\n\
             end\n",
};

const TAGGED_BY_ANOTHER: Receipt = Receipt {
    front: 3,
    tag_read: Seen {
        version: 1,
        value: Some(OTHERS_TAG),
    },
    rules_read: Some(Seen {
        version: 2,
        value: Some(4),
    }),
    owner_read: Some(Seen {
        version: 3,
        value: Some(4),
    }),
    label: Some(Label {
        uid: 10060,
        tag: 7,
        ..LABEL
    }),
    landed_tag: LANDED,
    ..PASSED
};

const DROPPED: Receipt = Receipt {
    front: 3,
    rules_read: Some(Seen {
        version: 2,
        value: Some(4),
    }),
    label: Some(Label {
        uid: 10060,
        ..LABEL
    }),
    verdict: Verdict::Drop,
    ..PASSED
};

const FIRST_UID: Receipt = Receipt {
    label: Some(Label {
        uid: 10001,
        ..LABEL
    }),
    ..PASSED
};

const SECOND_UID: Receipt = Receipt {
    label: Some(Label {
        uid: 10002,
        ..LABEL
    }),
    ..PASSED
};

const THIRD_UID: Receipt = Receipt {
    label: Some(Label {
        uid: 10003,
        ..LABEL
    }),
    landed_plain: Some(Mark::Full),
    ..PASSED
};

/// A map of two rows meets a third uid, which its app alone is charged with.
pub const FULL_MAP: Case = Case {
    parts: Parts {
        names: &[],
        sections: &[
            SectionParts {
                lanes: &[&[
                    (5, LineReceipt::Hook(FIRST_UID)),
                    (6, LineReceipt::Hook(SECOND_UID)),
                    (7, LineReceipt::Hook(THIRD_UID)),
                    (8, LineReceipt::Hook(FIRST_UID)),
                ]],
                replies: &[],
            },
            SectionParts {
                lanes: &[],
                replies: &[(11, Reply::Done)],
            },
        ],
        journal: &[],
        phases: &[PhaseParts {
            rows: &[
                ((10001, 0, 0, 2), (2, 120, 0, 0)),
                ((10002, 0, 0, 2), (1, 60, 0, 0)),
            ],
            deletion: None,
        }],
        live: &[],
        apps: &[
            (10001, (2, 120, 0, 0)),
            (10002, (1, 60, 0, 0)),
            (10003, (1, 60, 0, 0)),
        ],
        ifaces: &[],
    },
    before: "netacct-dump 1\n\
             calls 4 pass 4 drop 0 full 1\n\
             writes 0 phase 1\n\
             replies\n\
             reply 11 done\n",
    receipts: "receipts\n\
               rc 5 pass 0 0:- 0:- 0:- 0:- 0 10001 0 0 - landed landed\n\
               rc 6 pass 0 0:- 0:- 0:- 0:- 0 10002 0 0 - landed landed\n\
               rc 7 pass 0 0:- 0:- 0:- 0:- 0 10003 0 0 - full landed\n\
               rc 8 pass 0 0:- 0:- 0:- 0:- 0 10001 0 0 - landed landed\n",
    behind: "snapshot 0\n\
             row 10001 0 0 2 2 120 0 0\n\
             row 10002 0 0 2 1 60 0 0\n\
             live 1\n\
             total\n\
             row 10001 0 0 2 2 120 0 0\n\
             row 10002 0 0 2 1 60 0 0\n\
             apps\n\
             app 10001 2 120 0 0\n\
             app 10002 1 60 0 0\n\
             app 10003 1 60 0 0\n\
             ifaces\n\
             end\n",
};

const IN_THE_THIRD_PHASE: Receipt = Receipt {
    phase: Some(2),
    ..PASSED
};

/// Two collections of nothing, and then a packet.
pub const EMPTY_SNAPSHOTS: Case = Case {
    parts: Parts {
        names: &[],
        sections: &[
            SectionParts {
                lanes: &[],
                replies: &[(4, Reply::Done), (5, Reply::Done)],
            },
            SectionParts {
                lanes: &[&[(8, LineReceipt::Hook(IN_THE_THIRD_PHASE))]],
                replies: &[],
            },
        ],
        journal: &[],
        phases: &[
            PhaseParts {
                rows: &[],
                deletion: None,
            },
            PhaseParts {
                rows: &[],
                deletion: None,
            },
        ],
        live: &[((10050, 0, 0, 2), (1, 60, 0, 0))],
        apps: &[(10050, (1, 60, 0, 0))],
        ifaces: &[],
    },
    before: "netacct-dump 1\n\
             calls 1 pass 1 drop 0 full 0\n\
             writes 0 phase 2\n\
             replies\n\
             reply 4 done\n\
             reply 5 done\n",
    receipts: "receipts\n\
               rc 8 pass 0 0:- 0:- 0:- 0:- 2 10050 0 0 - landed landed\n",
    behind: "snapshot 0\n\
             snapshot 1\n\
             live 2\n\
             row 10050 0 0 2 1 60 0 0\n\
             total\n\
             row 10050 0 0 2 1 60 0 0\n\
             apps\n\
             app 10050 1 60 0 0\n\
             ifaces\n\
             end\n",
};

const BEFORE_DELETIONS: Receipt = Receipt {
    front: 2,
    tag_read: Seen {
        version: 1,
        value: Some(OWN_TAG),
    },
    set_read: Some(Seen {
        version: 2,
        value: Some(1),
    }),
    label: Some(Label {
        tag: 7,
        set: 1,
        ..LABEL
    }),
    landed_tag: LANDED,
    ..PASSED
};

const BEHIND_DELETIONS: Receipt = Receipt {
    front: 4,
    tag_read: Seen {
        version: 3,
        value: None,
    },
    set_read: Some(Seen {
        version: 4,
        value: None,
    }),
    phase: Some(3),
    ..PASSED
};

/// A tag is deleted, then the uid with its set, and then the uid again, of which nothing is left.
pub const DELETIONS: Case = Case {
    parts: Parts {
        names: &[],
        sections: &[
            SectionParts {
                lanes: &[],
                replies: &[(4, Reply::Done), (5, Reply::Done)],
            },
            SectionParts {
                lanes: &[&[(8, LineReceipt::Hook(BEFORE_DELETIONS))]],
                replies: &[],
            },
            SectionParts {
                lanes: &[],
                replies: &[(11, Reply::Done), (12, Reply::Done), (13, Reply::Done)],
            },
            SectionParts {
                lanes: &[&[(16, LineReceipt::Hook(BEHIND_DELETIONS))]],
                replies: &[],
            },
        ],
        journal: &[
            Write {
                key: Key::Cookie(77),
                value: Some(OWN_TAG),
            },
            Write {
                key: Key::Set(10050),
                value: Some(1),
            },
            Write {
                key: Key::Cookie(77),
                value: None,
            },
            Write {
                key: Key::Set(10050),
                value: None,
            },
        ],
        phases: &[
            PhaseParts {
                rows: &[((10050, 0, 1, 2), (1, 60, 0, 0))],
                deletion: Some(DeletionParts {
                    uid: 10050,
                    tag: 7,
                    rows: &[((10050, 7, 1, 2), (1, 60, 0, 0))],
                    app: None,
                }),
            },
            PhaseParts {
                rows: &[],
                deletion: Some(DeletionParts {
                    uid: 10050,
                    tag: 0,
                    rows: &[],
                    app: Some((1, 60, 0, 0)),
                }),
            },
            PhaseParts {
                rows: &[],
                deletion: Some(DeletionParts {
                    uid: 10050,
                    tag: 0,
                    rows: &[],
                    app: Some((0, 0, 0, 0)),
                }),
            },
        ],
        live: &[((10050, 0, 0, 2), (1, 60, 0, 0))],
        apps: &[(10050, (2, 120, 0, 0))],
        ifaces: &[],
    },
    before: "netacct-dump 1\n\
             calls 2 pass 2 drop 0 full 0\n\
             writes 4 phase 3\n\
             replies\n\
             reply 4 done\n\
             reply 5 done\n\
             reply 11 done\n\
             reply 12 done\n\
             reply 13 done\n",
    receipts: "receipts\n\
               rc 8 pass 2 1:10050/7 0:- 0:- 2:1 0 10050 7 1 landed landed landed\n\
               rc 16 pass 4 3:- 0:- 0:- 4:- 3 10050 0 0 - landed landed\n",
    behind: "snapshot 0\n\
             row 10050 0 1 2 1 60 0 0\n\
             deleted 0 10050 7\n\
             row 10050 7 1 2 1 60 0 0\n\
             snapshot 1\n\
             deleted 1 10050 0\n\
             app 10050 1 60 0 0\n\
             snapshot 2\n\
             deleted 2 10050 0\n\
             app 10050 0 0 0 0\n\
             live 3\n\
             row 10050 0 0 2 1 60 0 0\n\
             total\n\
             row 10050 0 0 2 1 60 0 0\n\
             row 10050 0 1 2 1 60 0 0\n\
             apps\n\
             app 10050 1 60 0 0\n\
             ifaces\n\
             end\n",
};

const TAGGED: Receipt = Receipt {
    front: 2,
    tag_read: Seen {
        version: 1,
        value: Some(OWN_TAG),
    },
    label: Some(Label { tag: 7, ..LABEL }),
    landed_tag: LANDED,
    ..PASSED
};

const IN_FOREGROUND: Receipt = Receipt {
    front: 2,
    set_read: Some(Seen {
        version: 2,
        value: Some(1),
    }),
    label: Some(Label {
        uid: 10051,
        set: 1,
        ..LABEL
    }),
    ..PASSED
};

const ON_LOOPBACK: Receipt = Receipt {
    front: 2,
    label: Some(Label { iface: 1, ..LABEL }),
    ..PASSED
};

const IN_THE_SECOND_PHASE: Receipt = Receipt {
    phase: Some(1),
    ..IN_FOREGROUND
};

const COUNTED: IfaceReceipt = IfaceReceipt {
    matched: true,
    landed: LANDED,
};

/// Four lanes side by side, named interfaces and two collections.
pub const FOUR_LANES: Case = Case {
    parts: Parts {
        names: &[(1, "lo"), (2, "wlan0")],
        sections: &[
            SectionParts {
                lanes: &[],
                replies: &[(6, Reply::Done), (7, Reply::Done)],
            },
            SectionParts {
                lanes: &[
                    &[
                        (13, LineReceipt::Hook(TAGGED)),
                        (14, LineReceipt::Hook(TAGGED)),
                    ],
                    &[(16, LineReceipt::Hook(IN_FOREGROUND))],
                    &[
                        (18, LineReceipt::Iface(COUNTED)),
                        (19, LineReceipt::Iface(COUNTED)),
                    ],
                    &[(21, LineReceipt::Hook(ON_LOOPBACK))],
                ],
                replies: &[],
            },
            SectionParts {
                lanes: &[],
                replies: &[(24, Reply::Done)],
            },
            SectionParts {
                lanes: &[&[(27, LineReceipt::Hook(IN_THE_SECOND_PHASE))]],
                replies: &[],
            },
            SectionParts {
                lanes: &[],
                replies: &[(30, Reply::Done)],
            },
        ],
        journal: &[
            Write {
                key: Key::Cookie(77),
                value: Some(OWN_TAG),
            },
            Write {
                key: Key::Set(10051),
                value: Some(1),
            },
        ],
        phases: &[
            PhaseParts {
                rows: &[
                    ((10050, 0, 0, 1), (1, 84, 0, 0)),
                    ((10050, 0, 0, 2), (1, 52, 2, 1573)),
                    ((10050, 7, 0, 2), (1, 52, 2, 1573)),
                    ((10051, 0, 1, 2), (2, 1573, 0, 0)),
                ],
                deletion: None,
            },
            PhaseParts {
                rows: &[((10051, 0, 1, 2), (0, 0, 1, 40))],
                deletion: None,
            },
        ],
        live: &[],
        apps: &[(10050, (2, 136, 2, 1573)), (10051, (2, 1573, 1, 40))],
        ifaces: &[(2, (1, 52, 2, 1573))],
    },
    before: "netacct-dump 1\n\
             calls 7 pass 5 drop 0 full 0\n\
             writes 2 phase 2\n\
             replies\n\
             reply 6 done\n\
             reply 7 done\n\
             reply 24 done\n\
             reply 30 done\n",
    receipts: "receipts\n\
               rc 13 pass 2 1:10050/7 0:- 0:- 0:- 0 10050 7 0 landed landed landed\n\
               rc 14 pass 2 1:10050/7 0:- 0:- 0:- 0 10050 7 0 landed landed landed\n\
               rc 16 pass 2 0:- 0:- 0:- 2:1 0 10051 0 1 - landed landed\n\
               ic 18 match landed\n\
               ic 19 match landed\n\
               rc 21 pass 2 0:- 0:- 0:- 0:- 0 10050 0 0 - landed landed\n\
               rc 27 pass 2 0:- 0:- 0:- 2:1 1 10051 0 1 - landed landed\n",
    behind: "snapshot 0\n\
             row 10050 0 0 lo 1 84 0 0\n\
             row 10050 0 0 wlan0 1 52 2 1573\n\
             row 10050 7 0 wlan0 1 52 2 1573\n\
             row 10051 0 1 wlan0 2 1573 0 0\n\
             snapshot 1\n\
             row 10051 0 1 wlan0 0 0 1 40\n\
             live 2\n\
             total\n\
             row 10050 0 0 lo 1 84 0 0\n\
             row 10050 0 0 wlan0 1 52 2 1573\n\
             row 10050 7 0 wlan0 1 52 2 1573\n\
             row 10051 0 1 wlan0 2 1573 1 40\n\
             apps\n\
             app 10050 2 136 2 1573\n\
             app 10051 2 1573 1 40\n\
             ifaces\n\
             iface wlan0 1 52 2 1573\n\
             end\n",
};
