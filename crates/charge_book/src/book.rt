//! The book of running requests and net charges.
ghost use Rattle.std.specs.Prelude.{◌≡◌, ◌+◌, ◌-◌, ◌<◌, ◌≤◌, ◌^◌, pos, length, Some, None, IfOk, IfErr, OnErr, OnOk, replicate, slice_index};
ghost use Rattle.vt_fixed.specs.Rounding.{length_of};
ghost use Rattle.fq_laws.specs.Changes.{length_change};
ghost use Rattle.charge_book.specs.Rows.{row_charge};
ghost use Rattle.charge_book.specs.Book.{row_on, use_refusal, IsRunRow, MayUse, SameSizes, nets_recharged, row_of_run, begun, reported, report_change, finished, finish_change};

use crate::refusal::BookRefusal;
use crate::row::RunRow;
use fq_model::config::Checked;
use fq_model::limits::{GREATEST_COST, GREATEST_WEIGHT};
use std::alloc::{AllocError, Global};
use std::marker::Model;

/// The running request of each worker that there may be, and the net charge of each tenant: the sum of the
/// charges of its requests, which are the greater of estimate and last use while they run, and the measured
/// cost afterwards. Contracts see both by number, and how many requests were begun.
#[derive(Drop)]
pub struct Book {
    rows: Vec<Option<RunRow>>,
    nets: Vec<u64>,
    begins: u64,
}

impl Model for Book {
    ghost use Rattle.charge_book.specs.Book.{BookView, IsSound};

    ghost Value = { BookView };

    ghost view = { λ b. record { rows = b.rows.items; nets = b.nets.items; begins = b.begins } };

    ghost invariant = { λ b. IsSound b.rows.items b.nets.items b.begins };
}

impl Book {
    /// A book in which nothing runs and nothing is charged. All its memory is taken here.
    pub fn open(alloc: Global, config: &Checked) -> Result<Book, AllocError>
        ensures rows { IfOk result (λ b. b.rows ≡ replicate config.now.workers None) }
        ensures nets { IfOk result (λ b. b.nets ≡ replicate (length config.now.weights) 0) }
        ensures begins { IfOk result (λ b. b.begins ≡ 0) }
    {
        let rows = vec![in alloc; None; config.workers() as usize]?;
        let nets = vec![in alloc; 0; config.tenants() as usize]?;
        Ok(Book {
            rows,
            nets,
            begins: 0,
        })
    }

    /// A worker that runs nothing takes a request. Gives the length charged: that of the estimate, in
    /// microseconds, at the weight, which the request keeps. A book has room for 2^32 begins.
    pub fn begin(
        &mut self,
        worker: u32,
        request: u32,
        tenant: u32,
        kind: u32,
        weight: u32,
        estimate: u64,
    ) -> i128
        requires worker { worker < length self.old.rows }
        requires free { row_on self.old worker ≡ None }
        requires tenant { tenant < length self.old.nets }
        requires weight_positive { 1 ≤ weight }
        requires weight_in_range { weight ≤ GREATEST_WEIGHT }
        requires estimate { estimate ≤ GREATEST_COST }
        requires few { self.old.begins < 2 ^ 32 }
        ensures change { result ≡ pos (length_of estimate weight) }
        ensures book { self.new ≡ begun self.old worker (row_of_run request tenant kind weight estimate) }
        ensures sizes { SameSizes self.old self.new }
    {
        self.rows[worker as usize] = Some(RunRow {
            request,
            tenant,
            kind,
            weight,
            estimate,
            last: 0,
        });
        self.nets[tenant as usize] += estimate;
        self.begins += 1;
        vt_fixed::length(estimate, weight)
    }

    /// The row on the worker, where `used`, a use or a cost in microseconds, is not refused.
    pub fn row_for(&self, worker: u32, used: u64) -> Result<RunRow, BookRefusal>
        requires { worker < length self.now.rows }
        ensures row { IfOk result (λ row. MayUse self.now worker row used) }
        ensures refused { IfErr result (λ refusal. use_refusal self.now worker used ≡ Some refusal) }
    {
        let row = self.running(worker).ok_or(BookRefusal::NotRunning)?;
        if used > GREATEST_COST {
            return Err(BookRefusal::CostRange(used));
        }
        if used < row.last {
            return Err(BookRefusal::Falling {
                last: row.last,
                given: used,
            });
        }
        Ok(row)
    }

    /// Writes down a use, in microseconds, of the request that runs on the worker, whose row `row_for` gave
    /// for it. Gives the change of its tenant's virtual charge, in steps, at the weight of the row.
    pub fn record_use(&mut self, worker: u32, row: RunRow, used: u64) -> i128
        requires { MayUse self.old worker row used }
        ensures change { result ≡ report_change self.old worker used }
        ensures book { self.new ≡ reported self.old worker used }
        ensures sizes { SameSizes self.old self.new }
    {
        let next = RunRow { last: used, ..row };
        self.rows[worker as usize] = Some(next);
        recharge(&mut self.nets, row, next.charge())
    }

    /// Writes down that the request that runs on the worker, whose row `row_for` gave for this cost, is done
    /// at it. The worker runs nothing then. Gives the change of its tenant's virtual charge, in steps, at the
    /// weight of the row.
    pub fn record_cost(&mut self, worker: u32, row: RunRow, cost: u64) -> i128
        requires { MayUse self.old worker row cost }
        ensures change { result ≡ finish_change self.old worker cost }
        ensures book { self.new ≡ finished self.old worker cost }
        ensures sizes { SameSizes self.old self.new }
    {
        self.rows[worker as usize] = None;
        recharge(&mut self.nets, row, cost)
    }

    /// A use of the request that runs on the worker, in microseconds. Gives the change of its tenant's
    /// virtual charge. A refusal changes nothing.
    pub fn report(&mut self, worker: u32, used: u64) -> Result<i128, BookRefusal>
        requires { worker < length self.old.rows }
        ensures accepted { OnOk result (use_refusal self.old worker used ≡ None) }
        ensures refused { IfErr result (λ refusal. use_refusal self.old worker used ≡ Some refusal) }
        ensures change { IfOk result (λ change. change ≡ report_change self.old worker used) }
        ensures book { OnOk result (self.new ≡ reported self.old worker used) }
        ensures unchanged { OnErr result (self.new ≡ self.old) }
        ensures sizes { SameSizes self.old self.new }
    {
        let row = self.row_for(worker, used)?;
        Ok(self.record_use(worker, row, used))
    }

    /// The request that runs on the worker is done, at this measured cost in microseconds, and the
    /// worker runs nothing. Gives the change of its tenant's virtual charge. A refusal changes nothing.
    pub fn finish(&mut self, worker: u32, cost: u64) -> Result<i128, BookRefusal>
        requires { worker < length self.old.rows }
        ensures accepted { OnOk result (use_refusal self.old worker cost ≡ None) }
        ensures refused { IfErr result (λ refusal. use_refusal self.old worker cost ≡ Some refusal) }
        ensures change { IfOk result (λ change. change ≡ finish_change self.old worker cost) }
        ensures book { OnOk result (self.new ≡ finished self.old worker cost) }
        ensures unchanged { OnErr result (self.new ≡ self.old) }
        ensures sizes { SameSizes self.old self.new }
    {
        let row = self.row_for(worker, cost)?;
        Ok(self.record_cost(worker, row, cost))
    }

    /// The row on the worker: the request that it runs, if it runs one.
    pub fn running(&self, worker: u32) -> Option<RunRow>
        requires { worker < length self.now.rows }
        ensures { result ≡ row_on self.now worker }
    {
        self.rows[worker as usize]
    }

    /// The net charge of the tenant, in microseconds.
    pub fn net(&self, tenant: u32) -> u64
        requires { tenant < length self.now.nets }
        ensures { result ≡ slice_index self.now.nets tenant }
    {
        self.nets[tenant as usize]
    }
}

// Makes `charge` the charge of the request of this row, and gives the change of the length.
fn recharge(nets: &mut Vec<u64>, row: RunRow, charge: u64) -> i128
    requires row { IsRunRow (length nets.old.items) row }
    requires charge { charge ≤ GREATEST_COST }
    requires covered { row_charge row ≤ slice_index nets.old.items row.tenant }
    requires room { slice_index nets.old.items row.tenant - row_charge row + charge < 2 ^ 64 }
    ensures nets { nets.new.items ≡ nets_recharged nets.old.items row charge }
    ensures change { result ≡ length_change row.weight (row_charge row) charge }
{
    let old = row.charge();
    let tenant = row.tenant as usize;
    nets[tenant] = nets[tenant] - old + charge;
    vt_fixed::length(charge, row.weight) - vt_fixed::length(old, row.weight)
}
