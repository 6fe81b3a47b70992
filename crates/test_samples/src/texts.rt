//! The sample network, roster and order, and their parts.

/// The roster's wagon with the greater number; it stands at DE00001.
pub const FAR: &str = "338447961008";

/// The roster's wagon with the smaller number; it stands at DE00002, nearer to the place of the sample order.
pub const NEAR: &str = "218124712173";

/// A wagon that the roster doesn't have.
pub const UNKNOWN: &str = "338447961040";

pub const NETWORK_HEADER: &str = "from,to,km,minutes,way\n";

/// Three places. From the first to the third the way by the second is shorter, and the direct one quicker.
pub const NETWORK: &str =
    "from,to,km,minutes,way\nDE00001,DE00002,100,120,both\nDE00002,DE00003,50,60,both\nDE00001,DE00003,160,90,one\n";

pub const ROSTER_HEADER: &str = "wagon,class,load,status,place,moment\n";

/// Two empty wagons, the greater number first.
pub const ROSTER: &str =
    "wagon,class,load,status,place,moment\n338447961008,Eanos,60000,empty,DE00001,2026-03-01T00:00:00Z\n218124712173,Eanos,60000,empty,DE00002,2026-03-01T00:00:00Z\n";

/// The sample order, for one wagon at DE00003.
pub const ORDER_TEXT: &str =
    r#"{"type":"order","order":"O1","place":"DE00003","classes":["Eanos"],"load":50000,"latest":"2026-03-01T04:00:00Z","penalty":1000}"#;
