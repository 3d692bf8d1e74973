// The GNAT as an index.
ghost use Rattle.gnat.specs.States.{state, GnatSound};
ghost use Rattle.gnat.specs.Once.{GnatSound-prop};

use crate::listing::{enlist, unlist};
use crate::refile::refile;
use gnat_filing::dropping::take_out;
use gnat_filing::filing::file;
use gnat_filing::settings::Settings;
use gnat_order::{find, list_rows};
use gnat_rows::{EMPTY, Node, Row, element_in, place_in};
use gnat_search::{Aim, search};
use hits::Hit;
use index::index::Index;
use index::refusal::{Refusal, room};
use metric::Metric;

// The tree lies in the rows, from the node `root` on. So many samples stand, and so many more are marked: both are counts
// into the rows that are lent, of those listed first and of those listed next.
#[derive(Drop)]
pub struct Gnat<'a, E: Metric> {
    rows: &'a mut [Row<E>],
    root: Node,
    settings: Settings,
    standing: usize,
    marked: usize,
    last: u16,
    ghost sound: { GnatSound E.dist (state rows.now root settings standing marked last) } by { GnatSound-prop E.dist (state rows.now root settings standing marked last) },
}

impl<'a, E: Metric> Gnat<'a, E> {
    ghost use Rattle.std.specs.Prelude.{◌≡◌, ◌+◌, ◌<◌, min, [], length, IfOk, IfErr};
    ghost use Rattle.index.specs.Meaning.{fresh};
    ghost use Rattle.gnat_theory.specs.Tree.Tree.{leaf};
    ghost use Rattle.gnat_rows.specs.Rows.{HasRow};
    ghost use Rattle.gnat_order.specs.Order.{Listed};
    ghost use Rattle.gnat.specs.States.{capacity_of};
    ghost use Rattle.gnat.specs.Gnats.{state_of, gnat_meaning, gnat_tree};
    ghost use Rattle.gnat.specs.Changes.{Rebuilt, FiledNew, TakesOut, Inserted};

    // An index over the rows that are lent, of which it uses at most 1,024.
    pub fn new(rows: &'a mut [Row<E>], settings: Settings) -> Gnat<'a, E>
        ensures fresh { gnat_meaning result ≡ fresh (min (length rows.old) 1024) }
        ensures tree { gnat_tree result ≡ leaf [] }
        ensures settings { result.settings ≡ settings }
    {
        let capacity = rows.len().min(1024);
        list_rows(rows, capacity as u16);
        Gnat {
            rows,
            root: EMPTY,
            settings,
            standing: 0,
            marked: 0,
            last: 0,
        }
    }

    fn capacity(&self) -> usize
        ensures { result ≡ capacity_of (state_of self.now) }
    {
        self.rows.len().min(1024)
    }

    // Where the sample of this number is listed.
    fn place_of(&self, number: u16) -> Result<usize, Refusal>
        ensures ok { IfOk result (λ at. Listed self.now.rows.now self.now.standing number (Some at)) }
        ensures err { IfErr result (λ refusal. (refusal ≡ Refusal.NotStanding number) × Listed self.now.rows.now self.now.standing number None) }
    {
        find(self.rows, self.standing, number).ok_or(Refusal::NotStanding(number))
    }

    // The row that is listed at `at`.
    fn row_at(&self, at: usize) -> u16
        requires { at < length self.now.rows.now }
        ensures { HasRow self.now.rows.now at (λ row. result ≡ row.place) }
    {
        place_in(self.rows, at)
    }

    // Files all standing samples anew; the marked rows are then free.
    fn rebuild(&mut self)
        ensures { Rebuilt E.dist (state_of self.old) (state_of self.new) }
    {
        self.root = refile(self.rows, self.standing, self.settings);
        self.marked = 0;
    }

    // Files an element under the next number, in the first free row.
    fn file_new(&mut self, e: E)
        requires room { self.old.standing + self.old.marked < capacity_of (state_of self.old) }
        requires numbers { self.old.last < 65535 }
        ensures { FiledNew E.dist (state_of self.old) e (state_of self.new) }
    {
        let in_use = self.standing + self.marked;
        let number = self.last + 1;
        let rows = &mut *self.rows;
        let at = enlist(rows, self.standing, in_use, number, e);
        self.root = file(rows, self.root, at, self.settings);
        self.standing += 1;
        self.last = number;
    }

    // Takes out the sample that is listed at `at`.
    fn take_away(&mut self, at: usize)
        requires listed { at < self.old.standing }
        ensures { TakesOut E.dist (state_of self.old) at (state_of self.new) }
    {
        let row = self.row_at(at);
        let rows = &mut *self.rows;
        let dropped = take_out(rows, self.root, row);
        self.marked = unlist(rows, at, self.standing, self.marked, dropped.freed);
        self.root = dropped.node;
        self.standing -= 1;
    }

    // Files an element under the next number, after a rebuild if no row is free.
    fn insert(&mut self, e: E)
        requires room { self.old.standing < capacity_of (state_of self.old) }
        requires numbers { self.old.last < 65535 }
        ensures { Inserted E.dist (state_of self.old) e (state_of self.new) }
    {
        if self.standing + self.marked == self.capacity() {
            self.rebuild();
        }
        self.file_new(e);
    }
}

impl<'a, E: Metric> Index for Gnat<'a, E> {
    ghost use Rattle.std.specs.Prelude.{◌≡◌};
    ghost use Rattle.index.specs.Calls.{add_outcome, add_leaves, drop_outcome, drop_leaves};
    ghost use Rattle.index.specs.Outcomes.{told};
    ghost use Rattle.gnat.specs.Gnats.{state_of, gnat_meaning, gnat_tree, TreeRight};
    ghost use Rattle.gnat.specs.Lawful.{gnat_lawful};
    ghost use Rattle.gnat.specs.Leaving.{tree_with, tree_without};

    type Element = E;

    ghost meaning = { gnat_meaning };

    ghost lawful = { gnat_lawful };

    // It also promises the tree that it leaves: rebuilt first if every row was in use.
    fn add(&mut self, e: E) -> Result<u16, Refusal>
        ensures answer { told result ≡ add_outcome (gnat_meaning self.old) }
        ensures leaves { gnat_meaning self.new ≡ add_leaves (gnat_meaning self.old) e }
        ensures tree { gnat_tree self.new ≡ tree_with E.dist (state_of self.old) e }
        ensures right { TreeRight E.dist self.new }
        ensures settings { self.new.settings ≡ self.old.settings }
    {
        room(self.capacity(), self.standing, self.last)?;
        self.insert(e);
        Ok(self.last)
    }

    // It also promises the tree that it leaves: a sample in a leaf leaves it, and a pivot is marked.
    fn drop(&mut self, number: u16) -> Result<(), Refusal>
        ensures answer { told result ≡ drop_outcome (gnat_meaning self.old) number }
        ensures leaves { gnat_meaning self.new ≡ drop_leaves (gnat_meaning self.old) number }
        ensures tree { gnat_tree self.new ≡ tree_without (state_of self.old) number }
        ensures right { TreeRight E.dist self.new }
        ensures settings { self.new.settings ≡ self.old.settings }
    {
        let at = self.place_of(number)?;
        self.take_away(at);
        Ok(())
    }

    fn element(&self, number: u16) -> Result<E, Refusal> {
        let at = self.place_of(number)?;
        Ok(element_in(self.rows, self.row_at(at) as usize))
    }

    fn tally(&self) -> (usize, usize, u16) {
        (self.capacity(), self.standing, self.last)
    }

    fn near(&self, q: &E, k: usize, list: &mut [Hit]) -> Result<usize, Refusal> {
        if k == 0 || k > list.len() {
            return Err(Refusal::HitCount);
        }
        let found = search(self.rows, &self.root, q, Aim::Nearest, &mut list[..k]);
        Ok(found.found)
    }

    fn within(&self, q: &E, radius: u32, list: &mut [Hit]) -> usize {
        let found = search(self.rows, &self.root, q, Aim::Within(radius), list);
        found.found
    }
}
