ghost use Rattle.std.specs.Prelude.{◌≡◌, length, replicate, None};

use crate::samples::{configured, expect_same, send_away};
use charge_book::book::Book;
use charge_book::refusal::BookRefusal;
use charge_book::row::RunRow;
use fq_model::config::Policy;
use fq_model::event::Cause;
use std::alloc::Global;
use std::process::Abort;

// A book for two workers and two tenants.
fn opened<R: Abort>(rt: &R, alloc: Global) -> Book
    ensures rows { result.rows ≡ replicate 2 None }
    ensures nets { result.nets ≡ replicate 2 0 }
    ensures begins { result.begins ≡ 0 }
{
    let config = configured(rt, alloc, Policy::TwoDfq, 2, 2);
    Book::open(alloc, &config).expect(rt, "memory for a book")
}

const FALLING: BookRefusal = BookRefusal::Falling {
    last: 12,
    given: 11,
};

// Reports of the first worker's request and a cost that is out of range, with the answers of the book.
fn expect_uses<R: Abort>(rt: &R, book: &mut Book)
    requires { length book.old.rows ≡ 2 }
    ensures rows { length book.new.rows ≡ 2 }
    ensures nets { length book.new.nets ≡ length book.old.nets }
{
    let told = [
        book.report(0, 4),
        book.report(0, 12),
        book.report(0, 11),
        book.finish(0, 1000000001),
    ];
    let range = BookRefusal::CostRange(1000000001);
    expect_same(rt, told, [Ok(0), Ok(2097152), Err(FALLING), Err(range)]);
}

// The request of the first worker ends, and then none runs there.
fn expect_end<R: Abort>(rt: &R, book: &mut Book)
    requires rows { length book.old.rows ≡ 2 }
    requires nets { length book.old.nets ≡ 2 }
{
    expect_same(rt, book.finish(0, 15), Ok(3145728));
    expect_same(rt, (book.net(1), book.net(0)), (15, 0));
    expect_same(rt, book.running(0), None);
    expect_same(rt, book.report(0, 4), Err(BookRefusal::NotRunning));
}

// A request from its begin to its end.
fn one_request<R: Abort>(rt: &R, alloc: Global) {
    let mut book = opened(rt, alloc);
    expect_same(rt, book.begin(0, 7, 1, 0, 1, 10), 10485760);
    expect_uses(rt, &mut book);
    expect_same(rt, book.net(1), 12);
    let row = RunRow {
        request: 7,
        tenant: 1,
        kind: 0,
        weight: 1,
        estimate: 10,
        last: 12,
    };
    expect_same(rt, book.running(0), Some(row));
    expect_end(rt, &mut book);
    send_away(book);
}

#[test]
fn charges_follow_uses(rt: HostRuntime) {
    one_request(&rt, rt.alloc());
}

// The changes of the virtual charge while both workers run requests, and then the net charge of the second tenant.
fn two_requests<R: Abort>(rt: &R, alloc: Global) {
    let mut book = opened(rt, alloc);
    let first = book.begin(0, 7, 1, 0, 1, 8);
    // The weight of its tenant is 4 now.
    let second = book.begin(1, 8, 1, 0, 4, 8);
    expect_same(rt, [first, second], [8388608, 2097152]);
    let told = [book.finish(0, 4), book.report(1, 12), book.finish(1, 16)];
    expect_same(rt, told, [Ok(-4194304), Ok(1048576), Ok(1048576)]);
    expect_same(rt, book.net(1), 20);
}

#[test]
fn what_runs_keeps_its_weight(rt: HostRuntime) {
    two_requests(&rt, rt.alloc());
}

#[test]
fn a_refusal_is_a_cause(rt: HostRuntime) {
    let cause = Cause::Falling {
        last: 12,
        given: 11,
    };
    expect_same(&rt, Cause::from(FALLING), cause);
}
