//! Packets follow the paths of the routes: laws without code.
ghost use Rattle.outcome_law.specs.Longest.{PacketsArrive};
ghost use Rattle.outcome_law.specs.Packets.{PacketsFollowPaths, PacketsTakeBestPaths, PeersFollowOffers};

/// Whatever the configuration is, in every stable outcome packets that follow next hops from a router go along exactly the path of its
/// route, over live links, to a live origin, and come to no place twice.
pub fn packets_follow_paths()
    ensures { PacketsFollowPaths }
{}

/// And from a router over whose session a peer is offered a path they go along the rest of that path.
pub fn peers_follow_offers()
    ensures { PeersFollowOffers }
{}

/// Where the configuration is right, the packets of each claimed router go along an allowed path that survives, of the best rank of
/// these, and it drops them only where none survives.
pub fn packets_take_best_paths()
    ensures { PacketsTakeBestPaths }
{}

/// Take one stable outcome for each prefix at once, and let each router send a packet by the longest prefix for which it holds a route.
/// Then every packet for which its router holds some prefix that covers its address comes to an origin of a covering prefix, on one way,
/// and to no place twice. Where nobody on the path of the longest one holds a longer one, it goes exactly along this path.
pub fn packets_arrive()
    ensures { PacketsArrive }
{}
