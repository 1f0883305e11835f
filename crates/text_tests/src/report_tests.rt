ghost use Rattle.std.specs.Prelude.{◌≡◌, ◌≤◌, length};
ghost use Rattle.fq_model.specs.History.{history_of};
ghost use Rattle.fq_model.specs.Rules.{IsLegal};
ghost use Rattle.text_tests.specs.Worked.{worked_config};

use crate::samples::{expect_same, expect_text, two_tenants};
use fq_model::event::{Act, Entry};
use lag_report::automatic::auto_slot;
use lag_report::fault::ReportFault;
use lag_report::printing::{print, summary};
use lag_report::report::Report;
use lag_report::reporting::report;
use std::alloc::Global;
use std::process::Abort;
use tenant_table::tenants::Tenants;
use tenant_table::tenants_builder::TenantsBuilder;

// The names of two tenants.
fn two_names<R: Abort>(rt: &R, alloc: Global) -> Tenants
    ensures { length result ≡ 2 }
{
    let mut names = TenantsBuilder::new(alloc);
    let _ = names.add("a", 1).expect(rt, "a name");
    let _ = names.add("b", 1).expect(rt, "another name");
    names.finish().expect(rt, "memory for names")
}

// The report of a history of two tenants.
fn reported<R: Abort>(rt: &R, alloc: Global, workers: u32, past: &[Entry], slot: u64) -> Report
    requires legal { IsLegal (worked_config workers) (history_of past.now) }
    requires positive { 1 ≤ slot }
    requires limit { slot ≤ 10 }
    ensures { length result.rows ≡ 2 }
{
    let config = two_tenants(rt, alloc, workers);
    let told = report(alloc, past, &config, slot);
    let Ok(told) = told else {
        panic!(rt; "no memory for a report")
    };
    told
}

// The report is printed so.
fn expect_printed<R: Abort>(rt: &R, alloc: Global, told: &Report, wanted: &[u8])
    requires { length told.now.rows ≡ 2 }
{
    let names = two_names(rt, alloc);
    expect_text(rt, print(alloc, told, &names), wanted);
}

// The report of a history is printed so, and has this summary, if one is given.
pub(crate) fn expect_report<R: Abort>(
    rt: &R,
    alloc: Global,
    workers: u32,
    past: &[Entry],
    slot: u64,
    wanted: &[u8],
    short: Option<&[u8]>,
)
    requires legal { IsLegal (worked_config workers) (history_of past.now) }
    requires positive { 1 ≤ slot }
    requires limit { slot ≤ 10 }
{
    let told = reported(rt, alloc, workers, past, slot);
    expect_printed(rt, alloc, &told, wanted);
    if let Some(short) = short {
        expect_text(rt, summary(alloc, &told), short);
    }
}

// There is no report of a history with one worker, for this reason.
fn expect_no_report<R: Abort>(rt: &R, alloc: Global, past: &[Entry], slot: u64, fault: ReportFault)
    requires legal { IsLegal (worked_config 1) (history_of past.now) }
    requires positive { 1 ≤ slot }
    requires limit { slot ≤ 10 }
{
    let config = two_tenants(rt, alloc, 1);
    expect_same(rt, report(alloc, past, &config, slot).err(), Some(fault));
}

// The slots of a history with one worker are this long, if no length is given.
fn expect_slot<R: Abort>(rt: &R, alloc: Global, past: &[Entry], wanted: u64) {
    let config = two_tenants(rt, alloc, 1);
    expect_same(rt, auto_slot(past, &config), wanted);
}

#[test]
fn lags_of_a_trace(rt: HostRuntime) {
    let past = [
        Entry {
            who: 0,
            moment: 0,
            act: Act::Submit {
                request: 0,
                tenant: 0,
                kind: 0,
                declared: 8,
                label: 0,
            },
        },
        Entry {
            who: 0,
            moment: 0,
            act: Act::Submit {
                request: 1,
                tenant: 1,
                kind: 0,
                declared: 2,
                label: 1,
            },
        },
        Entry {
            who: 1,
            moment: 0,
            act: Act::Submit {
                request: 2,
                tenant: 1,
                kind: 0,
                declared: 2,
                label: 2,
            },
        },
        Entry {
            who: 2,
            moment: 0,
            act: Act::Take {
                worker: 0,
                request: 1,
                estimate: 2,
            },
        },
        Entry {
            who: 3,
            moment: 0,
            act: Act::Take {
                worker: 1,
                request: 0,
                estimate: 8,
            },
        },
        Entry {
            who: 2,
            moment: 2,
            act: Act::Done {
                worker: 0,
                request: 1,
                cost: 2,
            },
        },
        Entry {
            who: 2,
            moment: 2,
            act: Act::Take {
                worker: 0,
                request: 2,
                estimate: 2,
            },
        },
        Entry {
            who: 2,
            moment: 4,
            act: Act::Done {
                worker: 0,
                request: 2,
                cost: 2,
            },
        },
        Entry {
            who: 3,
            moment: 8,
            act: Act::Done {
                worker: 1,
                request: 0,
                cost: 8,
            },
        },
        Entry {
            who: 0,
            moment: 8,
            act: Act::Close,
        },
    ];
    let wanted = b"report 1\nslot 5 slots 2\n\
tenant a weight 1 requests 1 charged 8 fluid 8 lag 0 0 1 1 1\n\
tenant b weight 1 requests 2 charged 4 fluid 4 lag 0 0 0 0 0\n\
end 8 entries 10\n";
    let short = b"summary 1\nrequests 3\nentries 10\nend 8\nlag 0 1\n";
    expect_report(&rt, rt.alloc(), 2, &past, 5, wanted, Some(short.as_slice()));
}

#[test]
fn lags_by_the_weights_of_each_slot(rt: HostRuntime) {
    let past = [
        Entry {
            who: 0,
            moment: 0,
            act: Act::Submit {
                request: 0,
                tenant: 0,
                kind: 0,
                declared: 20,
                label: 0,
            },
        },
        Entry {
            who: 0,
            moment: 0,
            act: Act::Submit {
                request: 1,
                tenant: 1,
                kind: 0,
                declared: 20,
                label: 1,
            },
        },
        Entry {
            who: 2,
            moment: 0,
            act: Act::Take {
                worker: 0,
                request: 0,
                estimate: 20,
            },
        },
        Entry {
            who: 1,
            moment: 10,
            act: Act::Weight {
                tenant: 0,
                weight: 3,
            },
        },
        Entry {
            who: 2,
            moment: 20,
            act: Act::Done {
                worker: 0,
                request: 0,
                cost: 20,
            },
        },
        Entry {
            who: 2,
            moment: 20,
            act: Act::Take {
                worker: 0,
                request: 1,
                estimate: 20,
            },
        },
        Entry {
            who: 2,
            moment: 40,
            act: Act::Done {
                worker: 0,
                request: 1,
                cost: 20,
            },
        },
        Entry {
            who: 0,
            moment: 40,
            act: Act::Close,
        },
    ];
    let wanted = b"report 1\nslot 10 slots 5\n\
tenant a weight 1 requests 1 charged 20 fluid 20 lag -7 0 0 0 0\n\
tenant b weight 1 requests 1 charged 20 fluid 20 lag 0 0 7 7 7\n\
end 40 entries 8\n";
    expect_report(&rt, rt.alloc(), 1, &past, 10, wanted, None);
}

#[test]
fn no_report(rt: HostRuntime) {
    let waiting = [
        Entry {
            who: 0,
            moment: 0,
            act: Act::Submit {
                request: 0,
                tenant: 0,
                kind: 0,
                declared: 8,
                label: 0,
            },
        },
        Entry {
            who: 0,
            moment: 5,
            act: Act::Submit {
                request: 1,
                tenant: 1,
                kind: 0,
                declared: 2,
                label: 1,
            },
        },
    ];
    expect_no_report(&rt, rt.alloc(), &waiting, 5, ReportFault::Unfinished(0));
    let long = [
        Entry {
            who: 0,
            moment: 0,
            act: Act::Submit {
                request: 0,
                tenant: 1,
                kind: 0,
                declared: 9,
                label: 0,
            },
        },
        Entry {
            who: 2,
            moment: 0,
            act: Act::Take {
                worker: 0,
                request: 0,
                estimate: 9,
            },
        },
        Entry {
            who: 2,
            moment: 2000000,
            act: Act::Done {
                worker: 0,
                request: 0,
                cost: 9,
            },
        },
    ];
    let fault = ReportFault::TooLong {
        slots: 2000001,
        tenants: 2,
    };
    expect_no_report(&rt, rt.alloc(), &long, 1, fault);
}

#[test]
fn automatic_slots(rt: HostRuntime) {
    expect_slot(&rt, rt.alloc(), &[], 1000);
    let late = Entry {
        who: 0,
        moment: 5000000000,
        act: Act::Close,
    };
    expect_slot(&rt, rt.alloc(), &[late], 4000);
}
