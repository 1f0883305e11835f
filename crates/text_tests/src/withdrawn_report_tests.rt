//! The report of a history in which a request is withdrawn, worked by hand.
use crate::report_tests::expect_report;
use fq_model::event::{Act, Entry};

// The only request of a tenant is withdrawn while a request of the other runs. It is counted, and never joined the
// fluid reference: with its 8 units there, b would have got 1 unit in the first slot, and lagged by -1.
#[test]
fn lags_without_what_is_withdrawn(rt: HostRuntime) {
    let past = [
        Entry {
            who: 0,
            moment: 0,
            act: Act::Submit {
                request: 0,
                tenant: 0,
                kind: 0,
                declared: 8,
                label: 0,
            },
        },
        Entry {
            who: 0,
            moment: 0,
            act: Act::Submit {
                request: 1,
                tenant: 1,
                kind: 0,
                declared: 2,
                label: 1,
            },
        },
        Entry {
            who: 0,
            moment: 0,
            act: Act::Submit {
                request: 2,
                tenant: 1,
                kind: 0,
                declared: 2,
                label: 2,
            },
        },
        Entry {
            who: 2,
            moment: 0,
            act: Act::Take {
                worker: 0,
                request: 1,
                estimate: 2,
            },
        },
        Entry {
            who: 0,
            moment: 1,
            act: Act::Withdraw { request: 0 },
        },
        Entry {
            who: 2,
            moment: 2,
            act: Act::Done {
                worker: 0,
                request: 1,
                cost: 2,
            },
        },
        Entry {
            who: 2,
            moment: 2,
            act: Act::Take {
                worker: 0,
                request: 2,
                estimate: 2,
            },
        },
        Entry {
            who: 2,
            moment: 4,
            act: Act::Done {
                worker: 0,
                request: 2,
                cost: 2,
            },
        },
        Entry {
            who: 0,
            moment: 4,
            act: Act::Close,
        },
    ];
    let wanted = b"report 1\nslot 2 slots 3\n\
tenant a weight 1 requests 1 charged 0 fluid 0 lag 0 0 0 0 0\n\
tenant b weight 1 requests 2 charged 4 fluid 4 lag 0 0 0 0 0\n\
end 4 entries 9\n";
    let short = b"summary 1\nrequests 3\nentries 9\nend 4\nlag 0 0\n";
    expect_report(&rt, rt.alloc(), 1, &past, 2, wanted, Some(short.as_slice()));
}
