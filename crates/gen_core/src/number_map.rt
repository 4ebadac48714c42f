//! Values by numbers, in the order of these, where numbers mostly follow one on the other: 64 numbers have a row, in which a value is
//! found at the place that its number gives.
ghost use Rattle.std.specs.Prelude.{◌≡◌, ◌≤◌, ◌<◌, ◌/◌, ◌∷◌, [], ℕ, length, map, take, IfErr, IfNone, IfOk, IfSome, OnOk, None, Some};
ghost use Rattle.std.specs.Option.{option_copied, option_map};
ghost use Rattle.std.specs.List.{AllByRecursion, slice_get};
ghost use Rattle.std.specs.Ordering.{nat_cmp};
ghost use Rattle.std.specs.Map.{lookup, remove_entry};
ghost use Rattle.std.specs.BTreeMap.{insert_entry, is_at};
ghost use Rattle.gen_core.specs.NumberMaps.{AreRows, IsAscending, IsFirstFrom, IsPlace, NoneFrom, flat, numbers_of, pairs_of};
ghost use Rattle.gen_core.specs.NumberMaps as numbers;
ghost use Rattle.gen_core.specs.ClauseIndex.{Marks, marked, marked_all};
ghost use Rattle.gen_core.specs.Marking.{item_marked, marked_on};

use crate::clause_index::Entry;
use std::alloc::Global;
use std::marker::Model;

/// So many numbers have one quotient.
const ROW: u64 = 64;

/// A value with its number.
#[derive(Drop)]
pub struct Item<V> {
    pub number: u64,
    pub value: V,
}

/// Values by numbers, seen by contracts as the numbers with their values, in order.
#[derive(Drop)]
pub struct NumberMap<V> {
    rows: Vec<Item<Vec<Item<V>>>>,
    /// How many values there are. No clause speaks of it.
    len: usize,
}

impl<V> Model for NumberMap<V> {
    ghost use Rattle.gen_core.specs.NumberMaps.{AreRows, ByNumber, IsAscending, flat};

    ghost Value = { ByNumber V };

    ghost view = { λ m. record { entries = flat m.rows.items } };

    ghost invariant = { λ m. IsAscending m.rows.items × AreRows m.rows.items };
}

impl<V> NumberMap<V> {
    /// No values. It takes no memory.
    pub fn new(alloc: Global) -> NumberMap<V>
        ensures { result.entries ≡ [] }
    {
        NumberMap {
            rows: Vec::new(alloc),
            len: 0,
        }
    }

    /// How many values there are. No clause speaks of it.
    pub fn len(&self) -> usize {
        self.len
    }

    /// The rows of values, in the order of their numbers.
    pub fn rows(&self) -> &[Item<Vec<Item<V>>>]
        ensures { flat result.now ≡ self.now.entries }
    {
        self.rows.as_slice()
    }

    /// The value on the number.
    pub fn get(&self, number: u64) -> Option<&V>
        ensures { option_copied result ≡ numbers.get self.now number }
    {
        find(self.rows.as_slice(), number)
    }

    /// The first value from a number on, with its number.
    pub fn first_from(&self, from: u64) -> Option<&Item<V>>
        ensures some { IfSome result (λ x. IsFirstFrom self.now.entries from x.now) }
        ensures none { IfNone result (NoneFrom self.now.entries from) }
    {
        first_in(self.rows.as_slice(), from)
    }
}

impl<V: Drop> NumberMap<V> {
    /// Puts a value on a number; one that was on it is dropped. A refused value is handed back, and the map is as it was; the only
    /// cause is out of memory.
    pub fn insert(&mut self, alloc: Global, number: u64, value: V) -> Result<(), V>
        ensures ordered { numbers.IsOrdered self.new }
        ensures ok { OnOk result (self.new.entries ≡ insert_entry nat_cmp self.old.entries number value) }
        ensures updates { OnOk result (numbers.Updates self.old self.new number (Some value)) }
        ensures err { IfErr result (λ v. (v ≡ value) × (self.new.entries ≡ self.old.entries)) }
    {
        insert_in(alloc, &mut self.rows, number, value)?;
        self.len = self.len.wrapping_add(1);
        Ok(())
    }

    /// Takes the value on a number out.
    pub fn remove(&mut self, number: u64) -> Option<V>
        ensures ordered { numbers.IsOrdered self.new }
        ensures value { result ≡ numbers.get self.old number }
        ensures entries { self.new.entries ≡ remove_entry (is_at (nat_cmp number)) self.old.entries }
        ensures updates { numbers.Updates self.old self.new number None }
    {
        let taken = take_in(&mut self.rows, number);
        self.len = self.len.wrapping_sub(taken.is_some() as usize);
        taken
    }
}

impl<C, K> NumberMap<Entry<C, K>> {
    /// Writes the place of the erasure of the clause on the number.
    pub fn mark(&mut self, number: u64, place: u64)
        ensures { Marks self.old self.new number place }
    {
        mark_in(&mut self.rows, number, place);
    }

    /// Writes the place of the erasure of each clause that is not erased.
    pub fn mark_all(&mut self, place: u64)
        ensures entries { self.new.entries ≡ map (λ e. (e.0, marked_all place e.1)) self.old.entries }
        ensures ordered { numbers.IsOrdered self.new }
    {
        mark_rows(&mut self.rows, place);
    }
}

/// Writes the place of the erasure of the clause on the number.
fn mark_in<C, K>(rows: &mut Vec<Item<Vec<Item<Entry<C, K>>>>>, number: u64, place: u64)
    requires ascending { IsAscending rows.old.items }
    requires rows { AreRows rows.old.items }
    ensures ascending { IsAscending rows.new.items }
    ensures rows { AreRows rows.new.items }
    ensures pairs { flat rows.new.items ≡ marked_on number place (flat rows.old.items) }
{
    if let Ok(i) = search(
        rows.as_slice(),
        number / ROW,
        near(rows.as_slice(), number / ROW),
    ) {
        mark_among(&mut rows[i].value, number, place);
    }
}

/// The same among the items of a row.
fn mark_among<C, K>(items: &mut Vec<Item<Entry<C, K>>>, number: u64, place: u64)
    requires { IsAscending items.old.items }
    ensures numbers { numbers_of items.new.items ≡ numbers_of items.old.items }
    ensures pairs { pairs_of items.new.items ≡ marked_on number place (pairs_of items.old.items) }
{
    if let Ok(i) = search(items.as_slice(), number, (number % ROW) as usize) {
        items[i].value.dated.erased = Some(place);
    }
}

/// Writes the place of the erasure of each clause of the rows that is not erased.
fn mark_rows<C, K>(rows: &mut Vec<Item<Vec<Item<Entry<C, K>>>>>, place: u64)
    requires ascending { IsAscending rows.old.items }
    requires rows { AreRows rows.old.items }
    ensures ascending { IsAscending rows.new.items }
    ensures rows { AreRows rows.new.items }
    ensures pairs { flat rows.new.items ≡ map (λ e. (e.0, marked_all place e.1)) (flat rows.old.items) }
{
    for i in 0..rows.as_slice().len() {
        mark_items(&mut rows[i].value, place);
    }
}

/// The same of a row.
fn mark_items<C, K>(items: &mut Vec<Item<Entry<C, K>>>, place: u64)
    ensures { items.new.items ≡ map (item_marked place) items.old.items }
{
    for i in 0..items.as_slice().len() {
        mark_item(&mut items[i], place);
    }
}

/// The same of an item.
fn mark_item<C, K>(item: &mut Item<Entry<C, K>>, place: u64)
    ensures { item.new ≡ item_marked place item.old }
{
    if item.value.dated.erased.is_none() {
        item.value.dated.erased = Some(place);
    }
}

/// Where the number stands among items in the order of their numbers, or the place before which it would stand. The place `guess`
/// is looked at first.
fn search<V>(items: &[Item<V>], number: u64, guess: usize) -> Result<usize, usize>
    requires { IsAscending items.now }
    ensures { IsPlace items.now number result }
{
    if let Some(item) = items.get(guess) {
        if item.number == number {
            return Ok(guess);
        }
    }
    let at = items.partition_point(|item| item.number < number);
    match items.get(at) {
        Some(item) => {
            if item.number == number {
                Ok(at)
            } else {
                Err(at)
            }
        }
        None => Err(at),
    }
}

/// The value on a number among items in order.
fn value_of<V>(items: &[Item<V>], number: u64) -> Option<&V>
    requires { IsAscending items.now }
    ensures { option_copied result ≡ lookup (is_at (nat_cmp number)) (pairs_of items.now) }
{
    match search(items, number, (number % ROW) as usize) {
        Ok(i) => Some(&items[i].value),
        Err(_) => None,
    }
}

/// Puts a value on a number; one that was on it is dropped. A refused value is handed back, and the items are as they were; the only
/// cause is out of memory.
fn put<V: Drop>(items: &mut Vec<Item<V>>, number: u64, value: V) -> Result<(), V>
    requires { IsAscending items.old.items }
    ensures ascending { IsAscending items.new.items }
    ensures ok { OnOk result (pairs_of items.new.items ≡ insert_entry nat_cmp (pairs_of items.old.items) number value) }
    ensures err { IfErr result (λ v. (v ≡ value) × (items.new.items ≡ items.old.items)) }
    ensures quotient { (n : ℕ) → number / 64 ≡ n → AllByRecursion (λ k. k / 64 ≡ n) (numbers_of items.old.items) → AllByRecursion (λ k. k / 64 ≡ n) (numbers_of items.new.items) }
{
    match search(items.as_slice(), number, items.len()) {
        Ok(i) => {
            items[i] = Item { number, value };
            Ok(())
        }
        Err(i) => match items.insert(i, Item { number, value }) {
            Ok(()) => Ok(()),
            Err(refused) => Err(value_in(refused.value)),
        },
    }
}

/// Takes the value on a number out.
fn take<V: Drop>(items: &mut Vec<Item<V>>, number: u64) -> Option<V>
    requires { IsAscending items.old.items }
    ensures ascending { IsAscending items.new.items }
    ensures value { result ≡ lookup (is_at (nat_cmp number)) (pairs_of items.old.items) }
    ensures pairs { pairs_of items.new.items ≡ remove_entry (is_at (nat_cmp number)) (pairs_of items.old.items) }
    ensures quotient { (n : ℕ) → AllByRecursion (λ k. k / 64 ≡ n) (numbers_of items.old.items) → AllByRecursion (λ k. k / 64 ≡ n) (numbers_of items.new.items) }
{
    match search(items.as_slice(), number, (number % ROW) as usize) {
        Ok(i) => Some(value_in(items.remove(i))),
        Err(_) => None,
    }
}

/// The value of an item.
fn value_in<V: Drop>(item: Item<V>) -> V
    ensures { result ≡ item.value }
{
    item.value
}

/// The value on a number.
fn find<V>(rows: &[Item<Vec<Item<V>>>], number: u64) -> Option<&V>
    requires ascending { IsAscending rows.now }
    requires rows { AreRows rows.now }
    ensures { option_copied result ≡ lookup (is_at (nat_cmp number)) (flat rows.now) }
{
    match search(rows, number / ROW, near(rows, number / ROW)) {
        Ok(i) => value_of(rows[i].value.as_slice(), number),
        Err(_) => None,
    }
}

/// Where the row stands that has the quotient, if all rows from the first one on up to it are there.
fn near<V>(rows: &[Item<V>], quotient: u64) -> usize {
    match rows.first() {
        Some(row) => quotient.wrapping_sub(row.number) as usize,
        None => 0,
    }
}

/// A row of one value.
fn row_with<V: Drop>(alloc: Global, number: u64, value: V) -> Result<Item<Vec<Item<V>>>, V>
    ensures ok { IfOk result (λ r. (r.number ≡ number / 64) × (r.value.items ≡ (record { number = number; value = value }) ∷ [])) }
    ensures err { IfErr result (λ v. v ≡ value) }
{
    let mut items = Vec::new(alloc);
    match items.push(Item { number, value }) {
        Ok(()) => Ok(Item {
            number: number / ROW,
            value: items,
        }),
        Err(refused) => Err(value_in(refused.value)),
    }
}

/// The value of a row of one.
fn only_value<V: Drop>(row: Item<Vec<Item<V>>>) -> V
    requires { length row.value.items ≡ 1 }
    ensures { Some result ≡ option_map (λ x. x.value) (slice_get row.value.items 0) }
{
    let mut items = row.value;
    match items.pop() {
        Some(item) => item.value,
        None => unreachable!(),
    }
}

/// Puts a value on a number; one that was on it is dropped. A refused value is handed back, and the rows are as they were; the only
/// cause is out of memory.
fn insert_in<V: Drop>(
    alloc: Global,
    rows: &mut Vec<Item<Vec<Item<V>>>>,
    number: u64,
    value: V,
) -> Result<(), V>
    requires ascending { IsAscending rows.old.items }
    requires rows { AreRows rows.old.items }
    ensures ascending { IsAscending rows.new.items }
    ensures rows { AreRows rows.new.items }
    ensures ok { OnOk result (flat rows.new.items ≡ insert_entry nat_cmp (flat rows.old.items) number value) }
    ensures err { IfErr result (λ v. (v ≡ value) × (flat rows.new.items ≡ flat rows.old.items)) }
{
    match search(rows.as_slice(), number / ROW, rows.len().wrapping_sub(1)) {
        Ok(i) => put(&mut rows[i].value, number, value),
        Err(i) => match rows.insert(i, row_with(alloc, number, value)?) {
            Ok(()) => Ok(()),
            Err(refused) => Err(only_value(refused.value)),
        },
    }
}

/// Takes the value on a number out.
fn take_in<V: Drop>(rows: &mut Vec<Item<Vec<Item<V>>>>, number: u64) -> Option<V>
    requires ascending { IsAscending rows.old.items }
    requires rows { AreRows rows.old.items }
    ensures ascending { IsAscending rows.new.items }
    ensures rows { AreRows rows.new.items }
    ensures value { result ≡ lookup (is_at (nat_cmp number)) (flat rows.old.items) }
    ensures pairs { flat rows.new.items ≡ remove_entry (is_at (nat_cmp number)) (flat rows.old.items) }
{
    match search(
        rows.as_slice(),
        number / ROW,
        near(rows.as_slice(), number / ROW),
    ) {
        Ok(i) => {
            let value = take(&mut rows[i].value, number);
            drop_empty(rows, i);
            value
        }
        Err(_) => None,
    }
}

/// Leaves a row out that has no values.
fn drop_empty<V: Drop>(rows: &mut Vec<Item<Vec<Item<V>>>>, i: usize)
    requires there { i < length rows.old.items }
    requires ascending { IsAscending rows.old.items }
    requires rows { AreRows rows.old.items }
    ensures ascending { IsAscending rows.new.items }
    ensures rows { AreRows rows.new.items }
    ensures pairs { flat rows.new.items ≡ flat rows.old.items }
{
    if rows[i].value.as_slice().is_empty() {
        rows.remove(i);
    }
}

/// The first item from a number on, among items in order.
fn first_of<V>(items: &[Item<V>], from: u64) -> Option<&Item<V>>
    requires { IsAscending items.now }
    ensures some { IfSome result (λ x. IsFirstFrom (pairs_of items.now) from x.now) }
    ensures none { IfNone result (NoneFrom (pairs_of items.now) from) }
{
    match search(items, from, (from % ROW) as usize) {
        Ok(i) => Some(&items[i]),
        Err(i) => items.get(i),
    }
}

/// Where the first row stands that may have a number from one on.
fn first_row<V>(rows: &[Item<Vec<Item<V>>>], from: u64) -> usize
    requires ascending { IsAscending rows.now }
    requires rows { AreRows rows.now }
    ensures { NoneFrom (flat (take result rows.now)) from }
{
    match search(rows, from / ROW, near(rows, from / ROW)) {
        Ok(i) => i,
        Err(i) => i,
    }
}

/// The first item from a number on, among rows in order.
fn first_in<V>(rows: &[Item<Vec<Item<V>>>], from: u64) -> Option<&Item<V>>
    requires ascending { IsAscending rows.now }
    requires rows { AreRows rows.now }
    ensures some { IfSome result (λ x. IsFirstFrom (flat rows.now) from x.now) }
    ensures none { IfNone result (NoneFrom (flat rows.now) from) }
{
    for i in first_row(rows, from)..rows.len() {
        if let Some(item) = first_of(rows[i].value.as_slice(), from) {
            return Some(item);
        }
    }
    None
}
