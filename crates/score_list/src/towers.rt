//! Towers of links with spans over a slab.

ghost use Rattle.std.specs.Prelude.{◌≡◌, ◌≢◌, ℕ, suc, ◌+◌, ◌<◌, ◌≤◌, ◌^◌, length, get_or, true, List, [], Some, None};
ghost use Rattle.score_list.specs.Rows.{Lacks};
ghost use Rattle.score_list.specs.Linked.{Element, link_at, links_at, span_at, height_at, tall, order, items, IsLevel, IsLinked, LinkedAs, StandsAt, Arrives, SetsLink, Hangs, Unhangs};
ghost use Rattle.score_list.specs.Linked.{Threads, Unthreads, IsPath, HangsScore, UnhangsScore, RescoresLinks, owner_on};

use blocks::BlockRef;
use slab::Slab;
use std::alloc::{AllocError, Global};

/// How many levels there are at most. At a quarter of the towers for each level more, they are enough for 2^32 elements.
pub(crate) const LEVELS: usize = 16;

/// A link to a tower, by its key plus one, or 0 at the end of its level; the number of places to there; and the tower's score, which
/// a search compares without reading the tower.
#[derive(Clone, Copy)]
pub(crate) struct Link {
    pub(crate) next: usize,
    pub(crate) span: usize,
    pub(crate) score: i64,
}

/// An element, and its links from the lowest level up.
#[derive(Drop)]
pub(crate) struct Tower {
    pub(crate) score: i64,
    pub(crate) member: BlockRef,
    pub(crate) links: Vec<Link>,
}

/// The towers, and the links of the head. An owner of links is 0 for the head, or a tower's key plus one.
#[derive(Drop)]
pub(crate) struct Towers {
    pub(crate) alloc: Global,
    pub(crate) slab: Slab<Tower>,
    pub(crate) head: [Link; LEVELS],
    pub(crate) len: usize,
}

/// An owner, and how many elements there are up to it.
#[derive(Clone, Copy)]
pub(crate) struct Place {
    pub(crate) owner: usize,
    pub(crate) rank: usize,
}

/// In front of all elements.
pub(crate) const START: Place = Place { owner: 0, rank: 0 };

impl Towers {
    /// No tower.
    pub(crate) fn new(alloc: Global) -> Self
        ensures linked { IsLinked result }
        ensures empty { items result ≡ [] }
    {
        Towers {
            alloc,
            slab: Slab::new(alloc),
            head: [Link {
                next: 0,
                span: 1,
                score: 0,
            }; LEVELS],
            len: 0,
        }
    }

    /// The link of an owner that reaches the level.
    pub(crate) fn link(&self, level: usize, owner: usize) -> Link
        requires { level < length (links_at self.now owner) }
        ensures { result ≡ link_at self.now level owner }
    {
        if owner == 0 {
            return self.head[level];
        }
        match self.slab.get(owner - 1) {
            Some(tower) => tower.links[level],
            None => unreachable!(),
        }
    }

    /// Sets the link of an owner that reaches the level.
    fn set_link(&mut self, level: usize, owner: usize, link: Link)
        requires { level < length (links_at self.old owner) }
        ensures { SetsLink self.old self.new level owner link }
    {
        if owner == 0 {
            self.head[level] = link;
            return;
        }
        let Some(tower) = self.slab.get_mut(owner - 1) else {
            unreachable!()
        };
        tower.links[level] = link;
    }

    /// The last owner of the level in front of a rank, from one in front of it on.
    pub(crate) fn advance(&self, level: usize, from: Place, rank: usize) -> Place
        requires level { level < 16 }
        requires head { length self.now.head ≡ 16 }
        requires row { IsLevel self.now level (order self.now) }
        requires rank { rank ≤ length (order self.now) }
        requires stands { StandsAt self.now level rank from.owner from.rank }
        ensures { Arrives self.now level rank result.owner result.rank }
    {
        let mut place = from;
        loop {
            let link = self.link(level, place.owner);
            if link.span > rank - place.rank {
                return place;
            }
            place = Place {
                owner: link.next,
                rank: place.rank + link.span,
            };
        }
    }

    /// How many levels a tower reaches, and 0 where there is none.
    fn height(&self, key: usize) -> usize
        ensures { result ≡ height_at self.now key }
    {
        match self.slab.get(key) {
            Some(tower) => tower.links.len(),
            None => 0,
        }
    }

    /// A tower joins a level, so many places behind the last owner in front of it.
    fn hang(&mut self, level: usize, owner: usize, left: usize, key: usize)
        requires reaches { level < length (links_at self.old owner) }
        requires span { left < span_at self.old level owner }
        requires room { span_at self.old level owner + 1 < 2 ^ 64 }
        requires fits { key + 1 < 2 ^ 64 }
        requires apart { owner ≢ suc key }
        ensures hangs { Hangs self.old self.new level key owner left }
        ensures score { HangsScore self.old self.new level key owner }
    {
        let link = self.link(level, owner);
        if level < self.height(key) {
            let (score, _) = self.element(key);
            let on = Link {
                next: link.next,
                span: link.span - left,
                score: link.score,
            };
            self.set_link(level, key + 1, on);
            let to = Link {
                next: key + 1,
                span: left + 1,
                score,
            };
            self.set_link(level, owner, to);
        } else {
            let over = Link {
                next: link.next,
                span: link.span + 1,
                score: link.score,
            };
            self.set_link(level, owner, over);
        }
    }

    /// A tower leaves a level, so many places behind the last owner in front of it.
    fn unhang(&mut self, level: usize, owner: usize, left: usize, key: usize)
        requires reaches { level < length (links_at self.old owner) }
        requires span { 0 < span_at self.old level owner }
        requires room { tall self.old level key ≡ true → span_at self.old level (suc key) + left < 2 ^ 64 }
        requires fits { key + 1 < 2 ^ 64 }
        ensures hangs { Unhangs self.old self.new level key owner left }
        ensures score { UnhangsScore self.old self.new level key owner }
    {
        if level < self.height(key) {
            let on = self.link(level, key + 1);
            let past = Link {
                next: on.next,
                span: on.span + left,
                score: on.score,
            };
            self.set_link(level, owner, past);
        } else {
            let link = self.link(level, owner);
            let over = Link {
                next: link.next,
                span: link.span - 1,
                score: link.score,
            };
            self.set_link(level, owner, over);
        }
    }

    /// A tower's links join every level at a rank, where a path leads.
    pub(crate) fn thread(&mut self, key: usize, rank: usize, path: &[Place; LEVELS])
        requires linked { IsLinked self.old }
        requires path { IsPath self.old rank path.now }
        requires rank { rank ≤ length (order self.old) }
        requires fresh { Lacks (suc key) (order self.old) }
        requires room { self.old.len < 2 ^ 62 }
        requires fits { key + 1 < 2 ^ 64 }
        ensures { Threads self.old self.new key rank }
    {
        let mut level = LEVELS;
        while level > 0 {
            level -= 1;
            let place = path[level];
            self.hang(level, place.owner, rank - place.rank, key);
        }
    }

    /// A tower's links leave every level. A path leads to its rank.
    pub(crate) fn unthread(&mut self, key: usize, rank: usize, path: &[Place; LEVELS])
        requires linked { IsLinked self.old }
        requires path { IsPath self.old rank path.now }
        requires rank { rank < length (order self.old) }
        requires key { get_or (order self.old) rank 0 ≡ key }
        requires room { self.old.len < 2 ^ 63 }
        requires fits { key + 1 < 2 ^ 64 }
        ensures { Unthreads self.old self.new key rank }
    {
        let mut level = LEVELS;
        while level > 0 {
            level -= 1;
            let place = path[level];
            self.unhang(level, place.owner, rank - place.rank, key);
        }
    }

    /// The links that lead to a tower, from the owners on a path to it, hold another score.
    pub(crate) fn rescore_links(&mut self, key: usize, path: &[Place; LEVELS], score: i64)
        requires { (level : ℕ) → level < 16 → level < length (links_at self.old (owner_on path.now level)) }
        ensures { RescoresLinks self.old self.new key path.now score }
    {
        let height = self.height(key);
        let high = height.min(LEVELS);
        for level in 0..high {
            let owner = path[level].owner;
            let mut link = self.link(level, owner);
            link.score = score;
            self.set_link(level, owner, link);
        }
    }
}
