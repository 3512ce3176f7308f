//! The queue of a granule, one request after another.
ghost use Rattle.std.specs.Prelude.{◌≡◌, ◌∷◌, ◌++◌, ◌&&◌, [], MatchOption, filter};
ghost use Rattle.std.specs.Iterator.{YieldsFirst, item_count};
ghost use Rattle.shore_types.specs.Locking.{same_granule};
ghost use Rattle.shore_model.specs.Requests.{is_in_group, requests_at};
ghost use Rattle.shore_model.specs.declared.requests.Group.TheVariants.{Holders as HoldersGroup, Conversions, NewWaiters};
ghost use Rattle.shore_nodes.specs.Tables.{holders_at, waiters_at};

use crate::counted::Counted;
use shore_model::Request;
use shore_model::requests::Group;
use shore_nodes::judgements::is_in;
use shore_nodes::nodes::Nodes;
use shore_nodes::walks::Walk;
use shore_types::Granule;
use std::marker::Model;

/// The requests of one group of a granule's queue that are left.
#[derive(Drop)]
struct InGroup<'a> {
    // What is left of the queue, which other granules may share.
    walk: Walk<'a>,
    // The granule whose requests are given.
    granule: Granule,
    // The group of requests that is given.
    group: Group,
}

impl<'a> Model for InGroup<'a> {
    ghost use Rattle.std.specs.Prelude.{ℕ, List, filter, map};
    ghost use Rattle.shore_model.specs.declared.requests.Request.{Request};
    ghost use Rattle.shore_model.specs.Requests.{is_in_group, requests_at};

    ghost Value = { List Request };

    ghost view = { λ g. filter (is_in_group g.group) (requests_at g.granule (map (λ (p : ℕ × Request). p.1) g.walk)) };
}

impl<'a> InGroup<'a> {
    fn new(nodes: &'a Nodes, granule: &Granule, group: Group) -> InGroup<'a>
        ensures { result ≡ filter (is_in_group group) (requests_at granule.now nodes.now.requests) }
    {
        InGroup {
            walk: nodes.queue(granule),
            granule: *granule,
            group,
        }
    }

    // Of a group of which nobody is in the queue.
    fn none(nodes: &'a Nodes, granule: &Granule, group: Group) -> InGroup<'a>
        ensures { result ≡ [] }
    {
        InGroup {
            walk: nodes.nobody(),
            granule: *granule,
            group,
        }
    }

    fn advance(&mut self) -> Option<Request>
        ensures { MatchOption result ((self.old ≡ []) × (self.new ≡ [])) (λ r. self.old ≡ r ∷ self.new) }
    {
        while let Some((_, request)) = self.walk.advance() {
            if is_for_group(request, &self.granule, self.group) {
                return Some(*request);
            }
        }
        None
    }
}

fn is_for_group(request: &Request, granule: &Granule, group: Group) -> bool
    ensures { result ≡ (same_granule request.now.granule granule.now && is_in_group group request.now) }
{
    request.granule == *granule && is_in(request, group)
}

/// Those that hold a granule and want nothing, in the order of its queue.
#[derive(Drop)]
pub struct Holders<'a> {
    // The holders that are left.
    left: InGroup<'a>,
}

impl<'a> Model for Holders<'a> {
    ghost use Rattle.std.specs.Prelude.{List};
    ghost use Rattle.shore_model.specs.declared.requests.Request.{Request};

    ghost Value = { List Request };

    ghost view = { λ h. h.left };
}

impl<'a> Holders<'a> {
    pub(crate) fn new(nodes: &'a Nodes, granule: Granule) -> Holders<'a>
        ensures { result ≡ holders_at granule nodes.now.requests }
    {
        Holders {
            left: InGroup::new(nodes, &granule, Group::Holders),
        }
    }
}

impl<'a> Iterator for Holders<'a> {
    type Item = Request;

    ghost next_gives = { YieldsFirst (λ left. left) };

    ghost remaining = { item_count (λ left. left) };

    fn next(&mut self) -> Option<Request> {
        self.left.advance()
    }
}

/// Those that wait for a granule, in the order of its queue: conversions, then new waiters.
#[derive(Drop)]
pub struct Waiters<'a> {
    // The conversions that are left, which come first.
    conversions: InGroup<'a>,
    // The new waiters that are left.
    new: InGroup<'a>,
}

impl<'a> Model for Waiters<'a> {
    ghost use Rattle.std.specs.Prelude.{List, ◌++◌};
    ghost use Rattle.shore_model.specs.declared.requests.Request.{Request};

    ghost Value = { List Request };

    ghost view = { λ w. w.conversions ++ w.new };
}

impl<'a> Waiters<'a> {
    pub(crate) fn new(counted: &'a Counted, granule: Granule) -> Waiters<'a>
        ensures { result ≡ waiters_at granule counted.now.requests }
    {
        Waiters {
            conversions: conversions_of(counted, &granule),
            new: InGroup::new(counted.nodes(), &granule, Group::NewWaiters),
        }
    }
}

// Mostly nobody converts, and no node is looked at.
fn conversions_of<'a>(counted: &'a Counted, granule: &Granule) -> InGroup<'a>
    ensures { result ≡ filter (is_in_group Conversions) (requests_at granule.now counted.now.requests) }
{
    if counted.may_have_conversions(granule) {
        InGroup::new(counted.nodes(), granule, Group::Conversions)
    } else {
        InGroup::none(counted.nodes(), granule, Group::Conversions)
    }
}

impl<'a> Iterator for Waiters<'a> {
    type Item = Request;

    ghost next_gives = { YieldsFirst (λ left. left) };

    ghost remaining = { item_count (λ left. left) };

    fn next(&mut self) -> Option<Request> {
        match self.conversions.advance() {
            Some(conversion) => Some(conversion),
            None => self.new.advance(),
        }
    }
}
