//! Texts of configurations for the small networks, and one of evidence.

/// Two routers, where B has the way to A's prefix.
pub const TWO_ROUTERS_CONFIG: &str = "propane-config 2
class 1 10.0.1.0/24
router A asn 64512 id 10.255.0.1
originate 1 10.0.1.0/24 tag 64512:0:1
session B asn 64513
export 1 tag 64512:0:1
end
router B asn 64513 id 10.255.0.2
session A asn 64512
import 1 tag 64512:0:1 set 64513:0:1 pref 100
end
";

/// The same configuration as a text of the first edition.
pub const TWO_ROUTERS_CONFIG_1: &str = "propane-config 1
class 1 10.0.1.0/24
router A asn 64512 id 10.255.0.1
originate 1 10.0.1.0/24 tag 64512:1
session B asn 64513
export 1 tag 64512:1
end
router B asn 64513 id 10.255.0.2
session A asn 64512
import 1 tag 64512:1 set 64513:1 pref 100
end
";

/// Two exits, of which P1 is preferred.
pub const TWO_EXITS_CONFIG: &str = "propane-config 2
class 1 0.0.0.0/0 le 32
router R1 asn 64512 id 10.255.0.1
session R2 asn 64513
import 1 tag 64513:0:1 set 64512:0:2 pref 100
import 1 tag 64513:0:2 set 64512:0:1 pref 101
export 1 tag 64512:0:1
export 1 tag 64512:0:2
peer P1 asn 1001
import 1 set 64512:0:1 pref 101
end
router R2 asn 64513 id 10.255.0.2
session R1 asn 64512
import 1 tag 64512:0:1 set 64513:0:2 pref 101
import 1 tag 64512:0:2 set 64513:0:1 pref 100
export 1 tag 64513:0:1
export 1 tag 64513:0:2
peer P2 asn 1002
import 1 set 64513:0:1 pref 100
end
";

/// Two exits, where P1 may enter to R2's prefix.
pub const ENTERED_CONFIG: &str = "propane-config 2
class 1 10.0.1.0/24
router R1 asn 64512 id 10.255.0.1
session R2 asn 64513
import 1 tag 64513:0:1 set 64512:0:1 pref 100
peer P1 asn 1001
export 1 tag 64512:0:1
end
router R2 asn 64513 id 10.255.0.2
originate 1 10.0.1.0/24 tag 64513:0:1
session R1 asn 64512
export 1 tag 64513:0:1
peer P2 asn 1002
end
";

/// The triangle, where all have a way to A's prefix.
pub const TRIANGLE_CONFIG: &str = "propane-config 2
class 1 10.0.1.0/24
router A asn 64512 id 10.255.0.1
originate 1 10.0.1.0/24 tag 64512:0:1
session B asn 64513
export 1 tag 64512:0:1
session C asn 64514
export 1 tag 64512:0:1
end
router B asn 64513 id 10.255.0.2
session A asn 64512
import 1 tag 64512:0:1 set 64513:0:1 pref 100
session C asn 64514
import 1 tag 64514:0:1 set 64513:0:1 pref 100
export 1 tag 64513:0:1
end
router C asn 64514 id 10.255.0.3
session A asn 64512
import 1 tag 64512:0:1 set 64514:0:1 pref 100
session B asn 64513
import 1 tag 64513:0:1 set 64514:0:1 pref 100
export 1 tag 64514:0:1
end
";

/// The ring, where a way over X is a detour.
pub const RING_CONFIG: &str = "propane-config 2
class 1 10.0.1.0/24
router D asn 64512 id 10.255.0.1
originate 1 10.0.1.0/24 tag 64512:0:1
session B asn 64513
export 1 tag 64512:0:1
session C asn 64515
export 1 tag 64512:0:1
end
router B asn 64513 id 10.255.0.2
session D asn 64512
import 1 tag 64512:0:1 set 64513:0:1 pref 101
session X asn 64514
import 1 tag 64514:0:1 set 64513:0:2 pref 100
export 1 tag 64513:0:1
export 1 tag 64513:0:2
end
router X asn 64514 id 10.255.0.3
session B asn 64513
import 1 tag 64513:0:1 set 64514:0:1 pref 100
import 1 tag 64513:0:2 set 64514:0:1 pref 100
export 1 tag 64514:0:1
session C asn 64515
import 1 tag 64515:0:1 set 64514:0:1 pref 100
import 1 tag 64515:0:2 set 64514:0:1 pref 100
export 1 tag 64514:0:1
end
router C asn 64515 id 10.255.0.4
session D asn 64512
import 1 tag 64512:0:1 set 64515:0:1 pref 101
session X asn 64514
import 1 tag 64514:0:1 set 64515:0:2 pref 100
export 1 tag 64515:0:1
export 1 tag 64515:0:2
end
";

/// Two ways, where A prefers the long one.
pub const TWO_WAYS_CONFIG: &str = "propane-config 2
class 1 10.0.1.0/24
router A asn 64512 id 10.255.0.1
session B asn 64513
import 1 tag 64513:0:1 set 64512:0:2 pref 101
session E asn 64516
import 1 tag 64516:0:1 set 64512:0:1 pref 100
end
router B asn 64513 id 10.255.0.2
session A asn 64512
export 1 tag 64513:0:1
session C asn 64514
import 1 tag 64514:0:1 set 64513:0:1 pref 100
end
router C asn 64514 id 10.255.0.3
session B asn 64513
export 1 tag 64514:0:1
session D asn 64515
import 1 tag 64515:0:1 set 64514:0:1 pref 100
end
router D asn 64515 id 10.255.0.4
originate 1 10.0.1.0/24 tag 64515:0:1
session C asn 64514
export 1 tag 64515:0:1
session E asn 64516
export 1 tag 64515:0:1
end
router E asn 64516 id 10.255.0.5
session A asn 64512
export 1 tag 64516:0:1
session D asn 64515
import 1 tag 64515:0:1 set 64516:0:1 pref 100
end
";

/// The two spines, without a way through the leaves.
pub const TWO_SPINES_CONFIG: &str = "propane-config 2
class 1 10.0.1.0/24
router T1 asn 64512 id 10.255.0.1
originate 1 10.0.1.0/24 tag 64512:0:1
session A1 asn 64513
export 1 tag 64512:0:1
end
router A1 asn 64513 id 10.255.0.2
session T1 asn 64512
import 1 tag 64512:0:1 set 64513:0:1 pref 100
session S1 asn 64514
import 1 tag 64514:0:1 set 64513:0:1 pref 100
export 1 tag 64513:0:1
session S2 asn 64515
import 1 tag 64515:0:1 set 64513:0:1 pref 100
export 1 tag 64513:0:1
end
router S1 asn 64514 id 10.255.0.3
session A1 asn 64513
import 1 tag 64513:0:1 set 64514:0:1 pref 100
export 1 tag 64514:0:1
session A2 asn 64516
import 1 tag 64516:0:1 set 64514:0:1 pref 100
export 1 tag 64514:0:1
end
router S2 asn 64515 id 10.255.0.4
session A1 asn 64513
import 1 tag 64513:0:1 set 64515:0:1 pref 100
export 1 tag 64515:0:1
session A2 asn 64516
import 1 tag 64516:0:1 set 64515:0:1 pref 100
export 1 tag 64515:0:1
end
router A2 asn 64516 id 10.255.0.5
session S1 asn 64514
import 1 tag 64514:0:1 set 64516:0:1 pref 100
export 1 tag 64516:0:1
session S2 asn 64515
import 1 tag 64515:0:1 set 64516:0:1 pref 100
export 1 tag 64516:0:1
session T3 asn 64517
export 1 tag 64516:0:1
session T4 asn 64518
export 1 tag 64516:0:1
end
router T3 asn 64517 id 10.255.0.6
session A2 asn 64516
import 1 tag 64516:0:1 set 64517:0:1 pref 100
end
router T4 asn 64518 id 10.255.0.7
session A2 asn 64516
import 1 tag 64516:0:1 set 64518:0:1 pref 100
end
";

/// The row, where D alone announces.
pub const LINE_CONFIG: &str = "propane-config 2
class 1 10.0.5.0/24
router A asn 64512 id 10.255.0.1
session D asn 64513
end
router D asn 64513 id 10.255.0.2
originate 1 10.0.5.0/24 tag 64513:0:1
session A asn 64512
session C asn 64514
export 1 tag 64513:0:1
end
router C asn 64514 id 10.255.0.3
session D asn 64513
import 1 tag 64513:0:1 set 64514:0:1 pref 100
end
";

/// The evidence for the configuration of two routers.
pub const TWO_ROUTERS_EVIDENCE: &str =
    r#"{"cases":[{"external":false,"nodes":[[0,0,0,100,64512,1],[1,0,1,100,64513,1]],"origins":[0],"prefixes":["10.0.1.0/24"],"starts":[0],"statement":1,"steps":[[0,1]]}],"version":1}
"#;
