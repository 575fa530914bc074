//! What a shard holds.
ghost use Rattle.std.specs.Prelude.{◌≡◌, ◌++◌, [], ◌∷◌, ◌≤◌, map, None, Some};
ghost use Rattle.std.specs.Prelude.{IfOk, IfSome, OnOk, OnErr};
ghost use Rattle.std.specs.List.{All};
ghost use Rattle.elan_terms.specs.Trees.{app_term, int_term};
ghost use Rattle.elan_terms.specs.Term.{depth, greatest as spec_greatest};
ghost use Rattle.elan_terms.specs.Valid.{IsNumber};
ghost use Rattle.elan_table.specs.Shown.{op_of, listed, key_of};
ghost use Rattle.elan_table.specs.Rows.{MayStand, node_key, terms};
ghost use Rattle.elan_table.specs.Nodes.{MayMake};
ghost use Rattle.elan_table.specs.Sets.{terms_prop};

use crate::NoMemory;
use crate::application::Application;
use crate::name::Name;
use crate::row::{Row, TermRef, agree_all, all_known};
use crate::rows::Rows;
use elan_terms::OpId;
use indexmap::IndexMap;
use std::alloc::{AllocError, Global};
use std::sync::Wait;

/// The numbers that a shard may give out next.
#[derive(Drop)]
struct Numbers {
    next: u64,
    left: u64,
}

/// Rows of applications by their nodes, and of integers.
#[derive(Drop)]
pub struct Shard<N: Name> {
    kept: IndexMap<Application<N>, TermRef<N>>,
    whole: IndexMap<i64, TermRef<N>>,
    numbers: Numbers,
    pub ghost keys: { map (λ e. app_term (op_of e.0) (terms (listed e.0))) kept.entries
        ≡ map (λ e. e.1.value) kept.entries } by { terms_prop _ _ },
    pub ghost values: { map (λ e. int_term e.0) whole.entries
        ≡ map (λ e. e.1.value) whole.entries } by { terms_prop _ _ },
}

impl Numbers {
    fn next<N: Name>(&mut self, rows: &Rows<N>) -> u64 {
        if self.left == 0 {
            self.next = rows.run();
            self.left = 128;
        }
        let number = self.next;
        self.next = number.wrapping_add(1);
        self.left = self.left.saturating_sub(1);
        number
    }
}

/// The greatest depth of these, or 0.
#[tactic(auto, using(elan_terms::proofs::TermLemmas::depths))]
fn greatest<N: Name>(rows: &Rows<N>, args: &[TermRef<N>]) -> u32
    requires { All (λ t. depth t.value ≤ 2000) args.now }
    ensures { result ≡ spec_greatest (map depth (terms args.now)) }
{
    match args {
        [] => 0,
        [first, rest @ ..] => rows.row(first).depth().max(greatest(rows, rest)),
    }
}

/// What stands in a row of the application.
#[tactic(auto, using(crate::proofs::Made::stands))]
fn row_of<N: Name>(
    alloc: Global,
    rows: &Rows<N>,
    op: OpId,
    args: &[TermRef<N>],
) -> Result<Row<N>, NoMemory>
    requires { MayMake N.shapes op (terms args.now) }
    ensures term { IfOk result (λ r. r ≡ app_term op (terms args.now)) }
    ensures stands { IfOk result (λ r. MayStand N.shapes r) }
{
    all_known(args);
    let made = Application::new(alloc, op, args)?;
    let depth = greatest(rows, args).saturating_add(1);
    Ok(Row::app(depth, made))
}

impl<N: Name> Shard<N> {
    ghost use Rattle.std.specs.Option.{option_map};
    ghost use Rattle.elan_table.specs.Shards.{number_at, pairs, whole_at, integer_at, integers};

    /// A shard that holds nothing.
    pub fn new(alloc: Global) -> Shard<N>
        ensures applications { pairs result ≡ [] }
        ensures integers { integers result ≡ [] }
    {
        Shard {
            kept: IndexMap::new(alloc),
            whole: IndexMap::new(alloc),
            numbers: Numbers { next: 0, left: 0 },
        }
    }

    /// Adds a node that the shard does not hold.
    fn put(&mut self, node: Application<N>, own: TermRef<N>) -> Result<(), NoMemory>
        requires row { own.value ≡ app_term (op_of node) (terms (listed node)) }
        requires absent { number_at self.old (key_of node) ≡ None }
        ensures added { OnOk result
            (pairs self.new ≡ pairs self.old ++ (key_of node, own.index) ∷ []) }
        ensures others { integers self.new ≡ integers self.old }
        ensures err { OnErr result (pairs self.new ≡ pairs self.old) }
    {
        match self.kept.insert(node, own) {
            Ok(_) => Ok(()),
            Err(_) => Err(AllocError),
        }
    }

    /// The row that the shard holds for the node of this operator over these rows.
    fn find(&self, node: &Application<N>, op: OpId, args: &[TermRef<N>]) -> Option<TermRef<N>>
        requires { key_of node.now ≡ node_key op args.now }
        ensures term { IfSome result (λ t. t.value ≡ app_term op (terms args.now)) }
        ensures held { option_map (λ t. t.index) result
            ≡ number_at self.now (node_key op args.now) }
    {
        match self.kept.get_key_value(node) {
            None => None,
            Some((key, own)) => {
                agree_all(key.args(), args);
                Some(own.again())
            }
        }
    }

    /// A row of the application: the one that the shard holds, else a new one. The arguments fit
    /// the operator, the application is canonical, and each argument is less than 2,000 deep.
    ///
    /// # Errors
    ///
    /// `NoMemory`; the shard then holds what it held.
    pub fn intern<R: Wait>(
        &mut self,
        rt: &R,
        alloc: Global,
        rows: &Rows<N>,
        op: OpId,
        args: &[TermRef<N>],
    ) -> Result<TermRef<N>, NoMemory>
        requires { MayMake N.shapes op (terms args.now) }
        ensures term { IfOk result (λ t. t.value ≡ app_term op (terms args.now)) }
        ensures held { IfSome (number_at self.old (node_key op args.now))
            (λ n. IfOk result (λ t. t.index ≡ n) × (pairs self.new ≡ pairs self.old)) }
        ensures new { number_at self.old (node_key op args.now) ≡ None →
            IfOk result
            (λ t. pairs self.new ≡ pairs self.old ++ (node_key op args.now, t.index) ∷ []) }
        ensures others { integers self.new ≡ integers self.old }
        ensures err { OnErr result (pairs self.new ≡ pairs self.old) }
    {
        let node = Application::new(alloc, op, args)?;
        match self.find(&node, op, args) {
            Some(own) => Ok(own),
            None => {
                let row = row_of(alloc, rows, op, args)?;
                let own = rows.put(rt, self.numbers.next(rows), row)?;
                let answer = own.again();
                self.put(node, own)?;
                Ok(answer)
            }
        }
    }

    /// Adds an integer that the shard does not hold.
    fn put_integer(&mut self, value: i64, own: TermRef<N>) -> Result<(), NoMemory>
        requires row { own.value ≡ int_term value }
        requires absent { whole_at self.old value ≡ None }
        ensures added { OnOk result
            (integers self.new ≡ integers self.old ++ (value, own.index) ∷ []) }
        ensures others { pairs self.new ≡ pairs self.old }
        ensures err { OnErr result (integers self.new ≡ integers self.old) }
    {
        match self.whole.insert(value, own) {
            Ok(_) => Ok(()),
            Err(_) => Err(AllocError),
        }
    }

    /// A row of the integer: the one that the shard holds, else a new one. There is a sort of
    /// integers, and the value is not `i64::MIN`.
    ///
    /// # Errors
    ///
    /// `NoMemory`; the shard then holds what it held.
    pub fn int<R: Wait>(
        &mut self,
        rt: &R,
        rows: &Rows<N>,
        value: i64,
    ) -> Result<TermRef<N>, NoMemory>
        requires { IsNumber N.shapes value }
        ensures term { IfOk result (λ t. t.value ≡ int_term value) }
        ensures held { IfSome (integer_at self.old value)
            (λ n. IfOk result (λ t. t.index ≡ n) × (integers self.new ≡ integers self.old)) }
        ensures new { integer_at self.old value ≡ None →
            IfOk result (λ t. integers self.new ≡ integers self.old ++ (value, t.index) ∷ []) }
        ensures others { pairs self.new ≡ pairs self.old }
        ensures err { OnErr result (integers self.new ≡ integers self.old) }
    {
        match self.whole.get(&value) {
            Some(own) => Ok(own.again()),
            None => {
                let own = new_integer(rt, rows, self.numbers.next(rows), value)?;
                let answer = own.again();
                self.put_integer(value, own)?;
                Ok(answer)
            }
        }
    }
}

/// A new row of the integer.
#[tactic(auto, using(crate::proofs::Made::integer_stands))]
fn new_integer<N: Name, R: Wait>(
    rt: &R,
    rows: &Rows<N>,
    number: u64,
    value: i64,
) -> Result<TermRef<N>, NoMemory>
    requires { IsNumber N.shapes value }
    ensures { IfOk result (λ t. t.value ≡ int_term value) }
{
    rows.put(rt, number, Row::int(value))
}
