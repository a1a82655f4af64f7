/// A room of one team: Ann starts with Boots, and finds Bob's Sword and her own Coin; Bob finds
/// Ann's Map.
pub const ROOM_A: &str =
    r#"{"format":"mw-multidata-1","games":{"G":{"item_name_to_id":{"Boots":5,"Coin":8,"Map":9,"Sword":7},"location_name_to_id":{"A1":101,"A2":102,"B1":201}}},"locations":[[1,101,7,2,1],[1,102,8,1,0],[2,201,9,1,2]],"seed_name":"A","server":{"collect":"goal","hint_cost":10,"location_check_points":1,"password":"","release":"goal","remaining":"goal"},"slots":[{"game":"G","names":["Ann"],"start":[[5,0]]},{"game":"G","names":["Bob"],"start":[]}],"spheres":[],"teams":1}"#;

/// What the room tells of itself to each that opens a session.
pub const ROOM_A_INFO: &str =
    r#"[{"cmd":"RoomInfo","datapackage_checksums":{"G":"3140df20051ca1c7a5dd4f886f8945c613c6fbba"},"games":["G"],"generator_version":{"build":0,"class":"Version","major":0,"minor":5},"hint_cost":10,"location_check_points":1,"password":false,"permissions":{"collect":2,"release":2,"remaining":2},"seed_name":"A","tags":[],"time":0,"version":{"build":0,"class":"Version","major":0,"minor":5}}]"#;

/// The room with a group of both, Duo, whose number is 3: Ann finds Duo's Coin.
pub const ROOM_OF_DUO: &str =
    r#"{"format":"mw-multidata-2","games":{"G":{"item_name_to_id":{"Boots":5,"Coin":8,"Map":9,"Sword":7},"location_name_to_id":{"A1":101,"A2":102,"B1":201}}},"groups":[{"game":"G","members":[1,2],"name":"Duo"}],"locations":[[1,101,7,2,1],[1,102,8,3,0],[2,201,9,1,2]],"seed_name":"A","server":{"collect":"goal","hint_cost":10,"location_check_points":1,"password":"","release":"goal","remaining":"goal"},"slots":[{"game":"G","names":["Ann"],"start":[[5,0]]},{"game":"G","names":["Bob"],"start":[]}],"spheres":[],"teams":1}"#;
