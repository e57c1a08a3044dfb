/// Who logs in to etcd.
#[derive(Drop)]
pub struct Login {
    pub user: String,
    pub password: String,
}
