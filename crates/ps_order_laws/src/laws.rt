//! Laws of orders. A call does nothing: its contract is the law.
ghost use Rattle.ps_order_laws.specs.Beginnings.{AnyBeginning};
ghost use Rattle.ps_order_laws.specs.Orders.{AnyOrder};
ghost use Rattle.ps_order_laws.specs.Standing.{OrdersStand};

/// What tells of things, so that two of it may be the same at a thing.
pub trait Knowing<X> {
    /// Two are the same at a thing.
    ghost same: { Self → Self → X → Type 0 };
}

/// From where a plan is good, each order of starts and ends that its arcs allow goes well, and comes to what the plan comes to.
pub fn any_order<K: Knowing<X>, X>()
    ensures { AnyOrder K X K.same }
{}

/// From where a plan is good, wherever starts and ends that its arcs allow lead to, each act that waits and is ready can start, each
/// one that runs has its over-all condition true and can end, and where all have ended, the state is what the plan comes to.
pub fn any_beginning<K: Knowing<X>, X>()
    ensures { AnyBeginning K X K.same }
{}

/// The orders are the lists in which each start and each end stands once, and none before one that has to stand before it.
pub fn orders_stand()
    ensures { OrdersStand }
{}
